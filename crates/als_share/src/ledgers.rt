ghost use Rattle.std.specs.Prelude.{ℕ, Bool, true, Option, None};
ghost use Rattle.logbook.specs.Pages.{Book};
ghost use Rattle.als_engine.specs.Machine.{Machine};

use std::marker::{Brand, PhantomData};
use std::sync::ledger::Ledger;

/// The ledgers of one shared engine: one for each event, each cut into as many parts as there are
/// shares. Whoever shares an engine picks them, what the engine's machine was, which view its readers
/// have, and whether its threads may take the database over.
pub trait Ledgers {
    /// The name of each event's ledger, by the event's place in a tally, and behind them that of the
    /// ledger of what is acknowledged for a session.
    ghost names: { ℕ → ℕ };

    /// How many shares there are.
    ghost shares: { ℕ };

    /// The machine that was shared.
    ghost start: { Option Machine };

    /// The view of the engine that was shared.
    ghost book: { Book };

    /// Whether its threads may take the database over: seal, undo, finish and resolve.
    ghost takes_over: { Bool };
}

impl Ledgers for Brand {
    ghost use Rattle.als_share.specs.Ledgers.{no_book};

    ghost names = { λ place. 0 };

    ghost shares = { 0 };

    ghost start = { None };

    ghost book = { no_book };

    ghost takes_over = { true };
}

/// The ledger of what is acknowledged for a session, whose name stands behind those of the events.
/// It has one part.
pub struct Floor<L> {
    of: PhantomData<L>,
}

impl<L: Ledgers> Ledger for Floor<L> {
    ghost name = { L.names 21 };

    ghost parts = { 1 };
}

/// The ledger of one event, named by its place in a tally.
pub struct Of<L, const PLACE: u8> {
    of: PhantomData<L>,
}

impl<L: Ledgers, const PLACE: u8> Ledger for Of<L, PLACE> {
    ghost name = { L.names PLACE };

    ghost parts = { L.shares };
}
