//! Logs as a primary would write them, the same in each run, for benchmarks, trials and tests.
#![tactic(auto)]

// Random numbers that come again.
mod dice;
// A small value.
mod small;
// One of a primary's transactions at a time.
mod writer;
// A primary that writes a valid log.
mod primary;
// Logs of transactions that do not end.
mod losers;
// A log as it is sent.
mod shipped;
// How a figure is printed.
mod told;

pub use dice::Dice;
pub use losers::write_losers;
pub use primary::{FIRST, PAGES, Primary, SLOTS};
pub use shipped::frames;
pub use told::tell;
