use crate::truth::Truth;
use als_engine::{Decision, Fault};
use als_fault::FaultKind;
use als_lead::{Answer, Asked};
use als_text::ShownImage;
use als_writer::{Failing, NotDecided, Refusal, Work, Written};
use std::io;
use std::io::Write;

/// Prints the line of an answer that may be printed. What ends the writer is reported by the command.
pub(crate) fn print<T: Truth, O: Write>(
    asked: &Asked,
    answer: &Answer,
    output: &mut O,
) -> io::Result<()>
    requires may { T.may_print asked.now answer.now }
{
    let work = &asked.work;
    match answer {
        Answer::Committed(written) => {
            let lsn = written.lsn;
            let trans = written.trans;
            writeln!(output, "lsn={} trans={}", lsn.0, trans.0)
        }
        Answer::Prepared(written) => print_written("prepared", written, output),
        Answer::Decided(written) => print_written(word_for(work), written, output),
        Answer::Refused(refusal) => print_refusal(refusal, output),
        Answer::NotDecided(reason) => print_undecided(work, reason, output),
        Answer::Unknown(_) | Answer::Withheld => Ok(()),
    }
}

/// Prints that a transaction is prepared, or how it was decided.
fn print_written<O: Write>(word: &str, written: &Written, output: &mut O) -> io::Result<()> {
    let lsn = written.lsn;
    let trans = written.trans;
    writeln!(output, "{word} trans={} lsn={}", trans.0, lsn.0)
}

/// The word for a decision.
fn word_for(work: &Work) -> &'static str {
    match work {
        Work::Decide { verdict, .. } => match verdict {
            Decision::Commit => "committed",
            Decision::Rollback => "rolled back",
        },
        Work::Commit(_) | Work::Prepare(_) => "committed",
    }
}

/// Prints the line of a refusal after which the writer goes on.
fn print_refusal<O: Write>(refusal: &Refusal, output: &mut O) -> io::Result<()> {
    match refusal {
        Refusal::NotAsAsked { failing } => print_failing(failing, output),
        Refusal::Held { .. }
        | Refusal::NumbersSpent
        | Refusal::TooMany
        | Refusal::LogFull
        | Refusal::Memory { .. } => {
            let kind = kind_of(refusal.fault());
            writeln!(output, "refused {kind}")
        }
        Refusal::Invalid(_) | Refusal::State(_) | Refusal::Untidy | Refusal::Unplanned(_) => Ok(()),
    }
}

/// Prints the line of the comparisons that failed: each key, and what it has.
fn print_failing<O: Write>(failing: &Failing, output: &mut O) -> io::Result<()> {
    write!(output, "not as asked")?;
    for unmet in failing.shown() {
        let key = unmet.key;
        let image = unmet.image.image();
        let value = ShownImage(&image);
        write!(output, " [{},{}]={value}", key.page, key.slot)?;
    }
    writeln!(output)
}

/// Prints the line of a decision that was not made, after which the writer goes on.
fn print_undecided<O: Write>(work: &Work, reason: &NotDecided, output: &mut O) -> io::Result<()> {
    match reason {
        NotDecided::NotInDoubt => match work {
            Work::Decide { trans, .. } => writeln!(output, "not in doubt trans={}", trans.0),
            Work::Commit(_) | Work::Prepare(_) => Ok(()),
        },
        NotDecided::Memory => {
            let kind = kind_of(reason.fault());
            writeln!(output, "refused {kind}")
        }
        NotDecided::Untidy | NotDecided::State(_) => Ok(()),
    }
}

/// The fault that is printed for a refusal.
fn kind_of(fault: Option<Fault>) -> FaultKind {
    match fault {
        Some(fault) => fault.kind(),
        None => FaultKind::NotDrained,
    }
}
