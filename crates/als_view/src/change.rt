use crate::history::Token;
use als_commits::Commit;

/// A change of a copy.
#[derive(Drop)]
pub enum Change {
    /// One more commit.
    Add(Commit),
    /// From here on readers may see the copy: its list is open, and is this front of the history.
    Mark(Token),
}
