//! How far a long work over bytes has come, and when that is worth a line.
#![tactic(auto)]

// What is done with the bytes.
mod work;
// Who is told.
mod advance;
// A reader that tells.
mod watched;
// When a line is due, and what it says.
mod meter;

pub use advance::{Advance, Unwatched};
pub use meter::{Line, Meter, Stretch, percent, rate};
pub use watched::Watched;
pub use work::Work;
