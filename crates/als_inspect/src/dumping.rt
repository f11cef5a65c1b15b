use crate::counting::is_told;
use crate::fault::Fault;
use crate::log_text::{LogText, text_of_file, text_of_folder};
use crate::telling::told;
use als_folder::Folder;
use als_progress::{Advance, Work};
use als_scan::Wanted;
use als_text::ShownRecord;
use std::fs;
use std::fs::File;
use std::io::Write;
use std::rt::Files;

/// Prints the records that are wanted of a log file, or of a standby's folder, of which the log is
/// read as far as it is acknowledged. `advance` receives how far.
///
/// Where a record is not sound, those before it are printed, and then it is refused. Stream: the
/// file or the output failed. Folder: the folder or a file of it failed, or another program has it.
/// Memory: there was none for the text.
pub fn dump<R: AllocGlobal + Files<File = File>, A: Advance, O: Write>(
    rt: &R,
    path: &str,
    wanted: Wanted,
    advance: &mut A,
    output: &mut O,
) -> Result<(), Fault> {
    let is_file = !fs::metadata(rt, path)?.is_dir();
    let text = if is_file {
        text_of_file(rt, path, advance)?
    } else {
        text_of_folder(rt, &Folder::hold_to_read(rt, path)?, advance)?
    };
    print(text, wanted, is_file, advance, output)
}

/// A line for each record that is wanted.
fn print<A: Advance, O: Write>(
    text: LogText,
    wanted: Wanted,
    is_file: bool,
    advance: &mut A,
    output: &mut O,
) -> Result<(), Fault> {
    let mut text = text;
    for count in 0..u64::MAX {
        if is_told(count) {
            advance.advances(Work::Judge, text.records.end().0, text.whole);
        }
        match text.records.next() {
            Ok(Some(logged)) => {
                if wanted.admits(&logged) {
                    writeln!(output, "{}", ShownRecord(&logged))?;
                }
            }
            Ok(None) => return Ok(()),
            Err(fault) => return Err(told(fault, is_file)),
        }
    }
    Ok(())
}
