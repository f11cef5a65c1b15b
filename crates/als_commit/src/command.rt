ghost use Rattle.std.specs.Prelude.{◌≡◌, List, []};
ghost use Rattle.als_lead.specs.declared.asked.Asked.{Asked as AnyAsked};
ghost use Rattle.als_lead.specs.declared.told.Told.{Told as AnyTold};
ghost use Rattle.als_lead.specs.Leading.{Leads};
ghost use Rattle.als_commit.specs.Printing.{OwesTo};

use crate::bad_line::BadLines;
use crate::committing::Committing;
use crate::lines::{Lines, LinesEnd};
use crate::truth::Truth;
use als_drive::Progress;
use als_engine::{Fault as EngineFault, Writes};
use als_lead::{Account, Database, Limits, Primary, PrimaryUpkeep, lead, open};
use als_operate::{Fault, named, settle};
use std::fs::File;
use std::io::{BufReader, Read, Write};
use std::marker::{Brand, PhantomData};
use std::rt::Files;
use std::sync::Wait;

/// The most lines that one force makes durable.
const BATCH_LIMIT: u64 = 1_000;

/// The log bytes from one checkpoint to the next: 4 MiB.
const CHECKPOINT_BYTES: u64 = 4_194_304;

/// How the writer of lines ended.
#[derive(Clone, Copy, Debug, PartialEq, Eq)]
pub enum Ending {
    /// Each line was answered or skipped.
    Done,
    /// A line was neither a transaction nor a decision, and the lines after it were not read.
    BadLine,
}

/// Writes each line of the input, a transaction or a decision, into the log of a folder's primary, and
/// prints a line for each once it is durable. `lines` receives the progress of the redo before that,
/// and each line that is neither.
///
/// BadConfig: the batch is not 1 to 1,000, or a size that is given is out of its range.
/// Stream: the input or the output failed. Else as `als_lead::open` says, or the first refusal of an
/// event. However it ends, what the engine has is put on the devices.
pub fn commit<
    R: AllocGlobal + Files<File = File> + Wait,
    I: Read + Drop,
    P: Progress + BadLines,
    O: Write,
>(
    rt: &R,
    committing: Committing<'_>,
    input: I,
    lines: &mut P,
    output: &mut O,
) -> Result<Ending, Fault> {
    if !(1..=BATCH_LIMIT).contains(&committing.batch) {
        return Err(Fault::Refused(EngineFault::BadConfig));
    }
    let database = Database {
        dir: committing.dir,
        pages: committing.pages,
        log_blocks: committing.log_blocks,
        readers: 1,
    };
    let Primary {
        folder,
        mut engine,
        readers,
    } = open(rt, database, lines)?;
    drop(readers);
    let ended = write_all(rt, committing, &mut engine, input, lines, output);
    let settled = settle(&mut engine);
    match (ended, settled) {
        (Ok(ending), Ok(())) => Ok(ending),
        (Err(fault), _) | (Ok(_), Err(fault)) => Err(named(&folder, fault)),
    }
}

/// Writes all lines, group by group. What is true of an engine that goes on from this one, and has its cause,
/// may be printed.
fn write_all<R: AllocGlobal + Wait, E: Writes, I: Read + Drop, B: BadLines, O: Write>(
    rt: &R,
    committing: Committing<'_>,
    engine: &mut E,
    input: I,
    bad: &mut B,
    output: &mut O,
) -> Result<Ending, Fault>
    // Each line that is a transaction or a decision was answered once, in order, by what is true of the
    // log at the end; and the log has no other new commits.
    ensures leads { (asked : List AnyAsked) × (told : List AnyTold) × Leads E.alone
        (E.machine engine.old) (E.machine engine.new) [] asked [] told }
    ensures book { E.book engine.new ≡ E.book engine.old }
{
    write_as::<Brand, R, E, I, B, O>(rt, committing, engine, input, bad, output)
}

/// The same, where all of that may be printed. Nothing else is.
fn write_as<T: Truth, R: AllocGlobal + Wait, E: Writes, I: Read + Drop, B: BadLines, O: Write>(
    rt: &R,
    committing: Committing<'_>,
    engine: &mut E,
    input: I,
    bad: &mut B,
    output: &mut O,
) -> Result<Ending, Fault>
    requires owed { OwesTo E.alone E.machine engine.old T.may_print }
    ensures leads { (asked : List AnyAsked) × (told : List AnyTold) × Leads E.alone
        (E.machine engine.old) (E.machine engine.new) [] asked [] told }
    ensures book { E.book engine.new ≡ E.book engine.old }
{
    let alloc = rt.alloc();
    let mut upkeep = PrimaryUpkeep::new(rt, CHECKPOINT_BYTES, engine.status().end);
    let mut lines: Lines<'_, I, B, O, T> = Lines {
        alloc,
        input: BufReader::new(alloc, input)?,
        line: Vec::new(alloc),
        number: 0,
        pages: engine.pages(),
        skip_bad: committing.skip_bad,
        end: None,
        bad,
        output,
        account: Account::Nothing,
        of: PhantomData,
    };
    let limits = Limits {
        transactions: committing.batch as usize,
        bytes: u64::MAX,
    };
    lead(alloc, engine, &mut lines, &mut upkeep, limits)?;
    match lines.end {
        Some(LinesEnd::Bad) => Ok(Ending::BadLine),
        Some(LinesEnd::End) | None => Ok(Ending::Done),
    }
}
