use als_folder::{Part, Trouble, Wrong};
use std::io;
use std::io::Write;

/// Says which file at a path is wrong, and what with it. A folder stands there, or a log file.
pub fn tell<W: Write>(
    errors: &mut W,
    path: &str,
    is_file: bool,
    trouble: Trouble,
) -> io::Result<()> {
    let name = trouble.part.file_name();
    if is_file || name.is_empty() {
        write!(errors, "als: {path}: ")?;
    } else {
        write!(errors, "als: {path}/{name}: ")?;
    }
    say(errors, trouble)
}

/// Says what is wrong in plain words.
fn say<W: Write>(errors: &mut W, trouble: Trouble) -> io::Result<()> {
    let of_folder = trouble.part == Part::Itself;
    let words = match trouble.wrong {
        Wrong::Missing if of_folder => "the folder is missing",
        Wrong::Missing => "the file is missing, or a link that leads nowhere",
        Wrong::NoFolder => "this is no folder",
        Wrong::Denied => "it may not be opened or written",
        Wrong::Locked if of_folder => {
            "another program has the folder; one with --serve answers GET /status and /keys/P/S, and of a primary POST /commit"
        }
        Wrong::Locked => "another program has the file, by a name in another folder",
        Wrong::ReadOnly => "its file system is read-only",
        Wrong::Kept => "there is a database already",
        Wrong::NoControl => {
            "it has data, but control.blk is missing: bring that back, or move the data away"
        }
        Wrong::NoRoom => "its disk has no room",
        Wrong::Gone => "its disk gave an input or output error, or is gone",
        Wrong::Short => "the file ends too early",
        Wrong::Long { blocks, pages } => {
            return writeln!(
                errors,
                "the file has {blocks} blocks, and its database {pages} pages: als rebuild-pages makes it anew"
            );
        }
        Wrong::Removed => "the file was removed, or another took its name, while it was open",
        Wrong::Cut { bytes } => {
            return writeln!(
                errors,
                "the file was cut to {bytes} bytes while it was open"
            );
        }
        Wrong::Failed if of_folder => "a file or the folder could not be read, written or synced",
        Wrong::Failed => "the file could not be opened, read, written or synced",
        Wrong::NoHeader => "the log's header is damaged, or that of another database",
        Wrong::BadRecord => "a record is damaged, or may not follow those in front of it",
        Wrong::Full => {
            "the log has no room for more: als grow makes it longer; at 4194304 blocks, 2 GiB, als begin makes a new log of what the database holds"
        }
        Wrong::BadControl => {
            "the control block or the checkpoint is damaged, or that of another log or page count"
        }
        Wrong::BadRole =>
            "it does not say which epoch a primary writes: move it away, and see als status",
        Wrong::OfPrimary => {
            "the folder is a primary's, and nobody took over from it: als primary serves it, als commit writes it, als ship --dir ships it"
        }
        Wrong::BadPage { page } => {
            return writeln!(
                errors,
                "the block of page {page} is damaged, or is not what log.blk makes of it: compare the log with another node's (als cut), then als rebuild-pages"
            );
        }
    };
    let is_pages = trouble.part == Part::Pages;
    if is_pages && matches!(trouble.wrong, Wrong::Missing | Wrong::Short) {
        return writeln!(errors, "{words}: als rebuild-pages makes it anew");
    }
    writeln!(errors, "{words}")
}
