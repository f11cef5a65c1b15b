use crate::fault::Fault;
use crate::introducing::Introducing;
use crate::line::Line;
use crate::standby_command::Following;
use als_engine::Fault as EngineFault;
use als_epochs::History;
use als_record::{FIRST_LSN, LogHeader, Lsn};
use als_ship::Fault as SessionFault;
use als_wire::{read_epochs, write_epochs, write_resume};
use std::alloc::Global;
use std::io::{Read, Write};
use std::net::{Net, OpenStream};
use std::time::Clock;

/// A connection, to be read and to be written.
pub(crate) type Lines<S> = (Line<S>, Line<S>);

/// Connects to the primary of a standby that has no database yet, and asks it for the log behind an
/// empty database, as `call_from` says.
pub(crate) fn call<R: AllocGlobal + Net + Clock>(
    rt: &R,
    following: Following<'_>,
    introducing: &mut Introducing,
) -> Result<Lines<R::Stream>, Fault> {
    let (lines, _) = call_from(rt, following, introducing, FIRST_LSN, &History::empty())?;
    Ok(lines)
}

/// Connects to the primary of a standby that ends there and has this history, says the id of its folder, and asks
/// it, as `greet` says.
///
/// Stream: nobody serves at the address, or the network failed. Else as `Introducing::dial` and `greet`.
pub(crate) fn call_from<R: AllocGlobal + Net + Clock>(
    rt: &R,
    following: Following<'_>,
    introducing: &mut Introducing,
    end: Lsn,
    own: &History,
) -> Result<(Lines<R::Stream>, History), Fault> {
    let stream = introducing.dial(rt, following)?;
    let header = header_of(following.pages)?;
    greet(rt.alloc(), stream, header, end, own)
}

/// Asks for the log from there on, and waits for the history with which a primary of such a log
/// answers. The connection comes back twice, to be read and to be written, for a follower of that
/// database, which asks the same.
///
/// Session: who is at the other end sent no history, or hung up. Stream: the network failed. Memory:
/// there was none for the question or the answer.
fn greet<S: Read + Write + OpenStream + Drop>(
    alloc: Global,
    stream: S,
    header: LogHeader,
    end: Lsn,
    own: &History,
) -> Result<(Lines<S>, History), Fault> {
    let mut writer = stream;
    let mut reader = writer.try_clone()?;
    let asked = ask(alloc, header, end, own, &mut writer)?;
    let (history, came) = answered(alloc, &mut reader)?;
    let lines = (
        Line::answered(reader, came),
        Line::asked(alloc, writer, asked),
    );
    Ok((lines, history))
}

/// The history that is answered, and its bytes.
fn answered<I: Read>(alloc: Global, reader: &mut I) -> Result<(History, Vec<u8>), SessionFault> {
    let history = read_epochs(reader)?;
    let mut came = Vec::new(alloc);
    write_epochs(&mut came, &history)?;
    Ok((history, came))
}

/// The header of a log of so many pages.
fn header_of(pages: u64) -> Result<LogHeader, Fault> {
    match u32::try_from(pages) {
        Ok(pages) => Ok(LogHeader { pages }),
        Err(_) => Err(Fault::Refused(EngineFault::BadConfig)),
    }
}

/// Asks for the log from there on, and answers how many bytes that were.
fn ask<O: Write>(
    alloc: Global,
    header: LogHeader,
    end: Lsn,
    own: &History,
    writer: &mut O,
) -> Result<usize, SessionFault> {
    let mut asked = Vec::new(alloc);
    write_resume(&mut asked, end, header, own)?;
    writer.write_all(asked.as_slice())?;
    writer.flush()?;
    Ok(asked.len())
}
