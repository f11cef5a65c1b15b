ghost use Rattle.std.specs.Prelude.{List, IfSome};
ghost use Rattle.als_writer.specs.declared.work.Work.{Work as AnyWork};
ghost use Rattle.als_asking.specs.declared.doubt.Doubt.{Doubt as AnyDoubt};
ghost use Rattle.als_asking.specs.declared.outcome.Outcome.{Outcome as AnyOutcome};

use crate::doubt::Doubt;
use crate::outcome::Outcome;
use als_writer::Work;

/// Commits, prepares and decides transactions for a client, which waits meanwhile.
pub trait Commits {
    // From the first state, this work has these outcomes and leaves the second state.
    ghost commits: { Self → List AnyWork → List AnyOutcome → Self → Type 0 };

    // In this state, these transactions are in doubt.
    ghost doubts: { Self → List AnyDoubt → Type 0 };

    /// Does each piece of work on its own, and returns their outcomes in the same order. A piece without
    /// an outcome counts as `Lost`.
    fn commit(&mut self, asked: Vec<Work>) -> Vec<Outcome>
        ensures { commits self.old asked.items result.items self.new };

    /// The transactions in doubt, by rising TransID. None: there is no memory for them.
    fn in_doubt(&self) -> Option<Vec<Doubt>>
        ensures { IfSome result (λ found. doubts self.now found.items) };
}
