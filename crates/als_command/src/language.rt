use crate::line::LINES;
use crate::texts;
use clap::Command;
use std::alloc::{AllocError, Global};

/// What the program's parser knows: the command lines, and the page of help over them.
pub fn language<'a>(alloc: Global) -> Result<Command<'a>, AllocError> {
    Command::new(alloc, "als")
        .bin_name("als")?
        .about(texts::ABOUT)
        .version(texts::VERSION)
        .after_help(texts::STATUSES)
        .subcommand_required(true)
        .subcommands(lines(alloc)?)
}

/// The command lines as the parser takes them.
fn lines<'a>(alloc: Global) -> Result<Vec<Command<'a>>, AllocError> {
    let mut lines: Vec<Command<'a>> = Vec::new(alloc);
    for line in LINES {
        lines.push(line.command(alloc)?)?;
    }
    Ok(lines)
}
