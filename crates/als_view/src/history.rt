// The history of all commits that were queued. It exists in proofs alone; its length is a word.
use als_commits::Commit;
use logbook::{Gain, Plain, Play, Rule, Seen};

/// The rule of the history.
pub struct Law;

impl Rule<Commit, u64> for Law {
    ghost use Rattle.std.specs.Prelude.{[]};
    ghost use base.Fml.{ftrue};
    ghost use Rattle.als_view.specs.Books.{IsKept};

    ghost holds = { λ cells log. IsKept cells log };

    ghost first = { [] };

    ghost hinted = { λ n log. Unit {0} };

    ghost shows = { λ log. [] };

    ghost keeps = { λ names log. ftrue };

    ghost moves = { λ ask before after answer. Unit {0} };
}

/// A beginning of the history that was reached. It has no bytes.
pub type Token = Seen<Commit, u64, Law>;

pub(crate) struct Nothing;

impl Gain<Commit, u64> for Nothing {
    ghost use base.Fml.{ftrue};

    ghost after = { λ names about answer. ftrue };
}

/// A step that adds a commit.
pub(crate) struct Adding;

impl Play<Commit, u64> for Adding {
    ghost use Rattle.als_view.specs.Books.{Adds};

    ghost then = { Adds };
}

impl Plain<Commit, Commit, u64> for Adding {
    ghost use Rattle.std.specs.Prelude.{None};

    ghost ask = { λ commit. commit };

    ghost state = { λ commit. None };
}
