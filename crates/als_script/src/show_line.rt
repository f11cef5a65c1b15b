use crate::words::Words;

/// A line that asks for what is there.
#[derive(Clone, Copy)]
pub enum ShowLine {
    Status,
    /// The transaction table.
    Table,
    /// The dirty page table.
    Dirty,
    /// `show page P`
    Page { page: u32 },
    /// All records of the database.
    Database,
    /// `show log A`: the held log records from an LSN on.
    Log { from: u64 },
    /// The history of takeovers.
    Epochs,
}

impl ShowLine {
    /// What a line asks for; None where it is no show line.
    pub fn parse(line: &str) -> Option<ShowLine> {
        let mut words = Words::of(line);
        if words.next()? != "show" {
            return None;
        }
        let show = match words.next()? {
            "status" => ShowLine::Status,
            "table" => ShowLine::Table,
            "dirty" => ShowLine::Dirty,
            "page" => ShowLine::Page {
                page: words.number()?,
            },
            "db" => ShowLine::Database,
            "epochs" => ShowLine::Epochs,
            "log" => ShowLine::Log {
                from: words.number()?,
            },
            _ => return None,
        };
        words.ending(show)
    }
}
