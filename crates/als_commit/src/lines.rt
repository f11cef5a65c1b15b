ghost use Rattle.std.specs.Prelude.{◌≡◌};
ghost use Rattle.als_lead.specs.Account.{taken_of, told_of};

use crate::bad_line::BadLines;
use crate::input_lines::{InputLine, next_line};
use crate::printing::print;
use crate::truth::Truth;
use als_lead::{Account, Answer, Asked, Clients, Waited};
use als_operate::Fault;
use als_request::{Mistake, work};
use als_writer::{Flaw, Work, find_flaw};
use std::alloc::Global;
use std::io::{BufReader, Read, Write};
use std::marker::PhantomData;

/// Why no more lines are read.
#[derive(Clone, Copy, PartialEq, Eq)]
pub(crate) enum LinesEnd {
    /// The input has ended.
    End,
    /// A line is neither a transaction nor a decision.
    Bad,
}

/// What a line of the input says.
enum Line {
    /// It is a transaction, or a decision.
    Work(Work),
    /// It is neither, and `bad` has received it.
    Bad,
    /// The input has ended.
    End,
}

/// The lines of an input as clients of the leader. Each is answered by a line of the output.
#[derive(Drop)]
pub(crate) struct Lines<'a, I: Read, B: BadLines, O: Write, T: Truth> {
    pub alloc: Global,
    pub input: BufReader<I>,
    /// The line that was read last.
    pub line: Vec<u8>,
    /// Its number, counted from 1.
    pub number: u64,
    /// The pages of the database.
    pub pages: u32,
    /// Whether a line that is neither a transaction nor a decision is skipped.
    pub skip_bad: bool,
    /// Why no more lines are read. None: more may be.
    pub end: Option<LinesEnd>,
    pub bad: &'a mut B,
    pub output: &'a mut O,
    /// What was taken and printed, for clauses only.
    pub account: Account,
    /// When an answer may be printed.
    pub of: PhantomData<T>,
}

impl<I: Read + Drop, B: BadLines, O: Write, T: Truth> Clients for Lines<'_, I, B, O, T> {
    ghost taken = { λ lines. taken_of lines.account };

    ghost told = { λ lines. told_of lines.account };

    ghost may_tell = { T.may_print };

    fn wait(&mut self) -> Result<Waited, Fault> {
        match self.end {
            None => Ok(Waited::Asks),
            Some(_) => Ok(Waited::Closed),
        }
    }

    fn next(&mut self) -> Result<Option<Asked>, Fault> {
        match self.next_work()? {
            Some(work) => {
                let asked = Asked {
                    seat: self.number,
                    work,
                };
                self.account.take(&asked);
                Ok(Some(asked))
            }
            None => Ok(None),
        }
    }

    fn tell(&mut self, asked: Asked, answer: Answer) -> Result<(), Fault> {
        let printed = print::<T, O>(&asked, &answer, self.output);
        self.account.tell(&asked, answer);
        printed?;
        Ok(())
    }

    fn end_group(&mut self) -> Result<(), Fault> {
        self.output.flush()?;
        Ok(())
    }
}

impl<I: Read + Drop, B: BadLines, O: Write, T: Truth> Lines<'_, I, B, O, T> {
    /// What the next line asks for. None: no more lines are read.
    fn next_work(&mut self) -> Result<Option<Work>, Fault>
        ensures { self.new.account ≡ self.old.account }
    {
        for _ in 0..u64::MAX {
            if self.end.is_some() {
                break;
            }
            match self.read()? {
                Line::Work(work) => return Ok(Some(work)),
                Line::Bad if self.skip_bad => {}
                Line::Bad => self.end = Some(LinesEnd::Bad),
                Line::End => self.end = Some(LinesEnd::End),
            }
        }
        Ok(None)
    }

    /// Reads a line.
    fn read(&mut self) -> Result<Line, Fault>
        ensures { self.new.account ≡ self.old.account }
    {
        match next_line(&mut self.input, &mut self.line)? {
            InputLine::End => return Ok(Line::End),
            InputLine::TooLong => {
                self.number = self.number.saturating_add(1);
                self.bad.too_long(self.number);
                return Ok(Line::Bad);
            }
            InputLine::Whole => self.number = self.number.saturating_add(1),
        }
        let asked = match work(self.alloc, self.line.as_slice()) {
            Ok(asked) => asked,
            Err(Mistake::Memory) => return Err(Fault::Memory),
            Err(mistake) => {
                self.bad.unreadable(self.number, mistake);
                return Ok(Line::Bad);
            }
        };
        match flaw_in(&asked, self.pages) {
            None => Ok(Line::Work(asked)),
            Some(flaw) => {
                self.bad.invalid(self.number, flaw);
                Ok(Line::Bad)
            }
        }
    }
}

/// What is wrong with a transaction in a database with this many pages. Nothing is with a decision: only
/// the log says whether there is anything to decide.
fn flaw_in(work: &Work, pages: u32) -> Option<Flaw> {
    match work {
        Work::Commit(transaction) | Work::Prepare(transaction) => find_flaw(transaction, pages),
        Work::Decide { .. } => None,
    }
}
