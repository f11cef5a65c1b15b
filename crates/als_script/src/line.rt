use crate::combined_line::CombinedLine;
use crate::crash_line::CrashLine;
use crate::fail_line::FailLine;
use crate::lease_line::LeaseLine;
use crate::read_line::ReadLine;
use crate::record_line::parse_record;
use crate::show_line::ShowLine;
use crate::step_line::StepLine;
use als_text::RawRecord;

/// A line of a simulation behind its first.
#[derive(Drop)]
pub enum Line<'a> {
    Record(RawRecord),
    Step(StepLine),
    Lease(LeaseLine),
    Read(ReadLine),
    Crash(CrashLine<'a>),
    Combined(CombinedLine),
    Fail(FailLine),
    Show(ShowLine),
}

impl<'a> Line<'a> {
    /// What a line says; None where it is none of the language.
    pub fn parse(line: &'a str) -> Option<Line<'a>> {
        if let Some(record) = parse_record(line) {
            return Some(Line::Record(record));
        }
        if let Some(step) = StepLine::parse(line) {
            return Some(Line::Step(step));
        }
        if let Some(step) = LeaseLine::parse(line) {
            return Some(Line::Lease(step));
        }
        if let Some(read) = ReadLine::parse(line) {
            return Some(Line::Read(read));
        }
        if let Some(crash) = CrashLine::parse(line) {
            return Some(Line::Crash(crash));
        }
        if let Some(combined) = CombinedLine::parse(line) {
            return Some(Line::Combined(combined));
        }
        if let Some(fail) = FailLine::parse(line) {
            return Some(Line::Fail(fail));
        }
        Some(Line::Show(ShowLine::parse(line)?))
    }
}
