use crate::words::Words;

/// A line of several steps.
#[derive(Clone, Copy)]
pub enum CombinedLine {
    /// Redo until nothing is pending.
    Drain,
    /// Write and sync the log, then the control block.
    Force,
    /// Seal the log, undo what was not committed, and end the takeover.
    Takeover,
}

impl CombinedLine {
    /// What a line combines; None where it is no combined line.
    pub fn parse(line: &str) -> Option<CombinedLine> {
        let mut words = Words::of(line);
        let combined = match words.next()? {
            "drain" => CombinedLine::Drain,
            "force" => CombinedLine::Force,
            "takeover" => CombinedLine::Takeover,
            _ => return None,
        };
        words.ending(combined)
    }
}
