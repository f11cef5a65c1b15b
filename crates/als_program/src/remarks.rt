use crate::failure::Failure;
use als_script::{
    Explanation, FIRST_OF_MAKE, FIRST_OF_SIM, RECORD_FORMS, STEP_FORMS, WorldLine, explain,
    is_command, line_number,
};
use als_sim::{Ending, Left, Misplaced};
use std::io::Write;
use std::{io, str};

/// What an input is written in.
#[derive(Clone, Copy)]
pub enum Language {
    /// Of `als make`.
    Records,
    /// Of `als sim`.
    Script,
}

/// Says more of a failure, where there is more to say.
pub fn failure<W: Write>(
    errors: &mut W,
    failure: &Failure,
    language: Language,
    input: &[u8],
) -> io::Result<()> {
    match failure {
        Failure::BadLine(number) => bad_line(errors, language, input, *number),
        Failure::TooLong => writeln!(
            errors,
            "als: standard input has more than 16,777,216 bytes; nothing of it was run"
        ),
        Failure::Unreadable => writeln!(
            errors,
            "als: standard input could not be read to its end; nothing of it was run"
        ),
        _ => Ok(()),
    }
}

/// Says why a script ended as it did, where there is more to say.
pub fn ending<W: Write>(errors: &mut W, ending: &Ending, input: &[u8]) -> io::Result<()> {
    match ending {
        Ending::Ran(left) => of_feeds(errors, left),
        Ending::WorldRefused => bad_world(errors, input),
    }
}

/// Says where feeds begin, if one did not begin there, which fault is kept, and how much of a
/// record is there.
fn of_feeds<W: Write>(errors: &mut W, left: &Left) -> io::Result<()> {
    if let Some(misplaced) = &left.misplaced {
        began_elsewhere(errors, misplaced)?;
    }
    if let Some(kind) = left.kept {
        writeln!(
            errors,
            "als: the standby keeps the refusal {kind}, and refuses all that is fed, until a line `resync`"
        )?;
    }
    if left.partial > 0 && (left.misplaced.is_some() || left.kept.is_some()) {
        let Left { partial, end, .. } = left;
        writeln!(
            errors,
            "als: the standby has {partial} bytes of the record at {end}, which is not whole yet"
        )?;
    }
    Ok(())
}

/// Says where a feed should have begun.
fn began_elsewhere<W: Write>(errors: &mut W, misplaced: &Misplaced) -> io::Result<()> {
    let Misplaced {
        line,
        from,
        end,
        partial,
    } = misplaced;
    write!(
        errors,
        "als: line {line}: this feed begins at {from}; feeds begin at the end of the log ({end})"
    )?;
    if *partial > 0 {
        write!(errors, ", behind the {partial} bytes of its next record")?;
    }
    writeln!(errors)
}

/// Says why the line of this number is bad: which of its words is wrong, and what is wanted there.
fn bad_line<W: Write>(
    errors: &mut W,
    language: Language,
    input: &[u8],
    number: u64,
) -> io::Result<()> {
    let Some((first, line)) = find(input, number) else {
        let form = first_form(language);
        return writeln!(
            errors,
            "als: the input ends before its first line, which is wanted as `{form}`"
        );
    };
    let Ok(line) = str::from_utf8(line) else {
        return writeln!(errors, "als: line {number} is not UTF-8");
    };
    let wrong = match language {
        Language::Records if first => explain(line, &FIRST_OF_MAKE),
        Language::Script if first => explain(line, &FIRST_OF_SIM),
        Language::Records => explain(line, &RECORD_FORMS),
        Language::Script => of_script(line),
    };
    match wrong {
        Some(wrong) => writeln!(errors, "als: line {number}: {wrong}"),
        None => writeln!(
            errors,
            "als: line {number}: a number is out of its range: `feed A B` ends in the log text of the record lines above, `show page P` names a page of the database, `adopt` has at most 32 seals of which none is below the one before it, and `fail` counts from 1"
        ),
    }
}

/// Why a line is neither a step's nor a record's: by the form that it agrees with for longest.
fn of_script(line: &str) -> Option<Explanation<'_>> {
    let of_step = explain(line, &STEP_FORMS)?;
    let of_record = explain(line, &RECORD_FORMS)?;
    if of_record.word > of_step.word {
        return Some(of_record);
    }
    Some(of_step)
}

/// The line of this number, and whether it is the first command.
fn find(input: &[u8], number: u64) -> Option<(bool, &[u8])> {
    let mut first = true;
    for (index, line) in input.split(|b| *b == b'\n').enumerate() {
        if line_number(index) == number {
            return if line.is_empty() {
                None
            } else {
                Some((first, line))
            };
        }
        if is_command(line) {
            first = false;
        }
    }
    None
}

fn first_form(language: Language) -> &'static str {
    match language {
        Language::Records => "pages P",
        Language::Script => "world pages=B log=B frames=B workers=B pending=B",
    }
}

/// Says which numbers of a world line are out of their range.
fn bad_world<W: Write>(errors: &mut W, input: &[u8]) -> io::Result<()> {
    let Some(world) = world_of(input) else {
        return Ok(());
    };
    let numbers = [
        ("pages", world.pages, 4_096),
        ("log", world.log, 4_194_304),
        ("frames", world.frames, 4_096),
        ("workers", world.workers, 8),
        ("pending", world.pending, 1_000_000),
    ];
    for (name, number, limit) in numbers {
        if !(1..=limit).contains(&number) {
            writeln!(
                errors,
                "als: {name}={number}: wanted is a number from 1 to {limit}"
            )?;
        }
    }
    Ok(())
}

/// The world that an input begins with.
fn world_of(input: &[u8]) -> Option<WorldLine> {
    for line in input.split(|b| *b == b'\n') {
        if is_command(line) {
            return WorldLine::parse(str::from_utf8(line).ok()?);
        }
    }
    None
}

/// Says what is read from a terminal.
pub fn reads_terminal<W: Write>(errors: &mut W, language: Language) -> io::Result<()> {
    match language {
        Language::Records => writeln!(
            errors,
            "als make reads record lines from standard input; end them by an end of file (Ctrl-D). `als make --help` lists them."
        ),
        Language::Script => writeln!(
            errors,
            "als sim reads a script from standard input; end it by an end of file (Ctrl-D). `als sim --help` lists its lines."
        ),
    }
}
