//! Which keys a read names: those of a page, or those of a text in JSON.
//!
//!     {"keys":[[P,S],[P,S],..]}
//!
//! 1. A key is a page and a slot: decimal numbers of 32 and 8 bits. Whether the database has it is for the
//!    reader to say.
//! 2. A text names 600 keys at most, and an empty list is one. No object has a name twice, and there is no
//!    member beside `keys`.
//! 3. The keys stand in the order of the text, and may come twice.
#![tactic(auto)]

// Decimal numbers.
mod numbers;
// The keys of a page.
mod pages;
// The keys that a text names.
mod wanting;

pub use numbers::number;
pub use pages::page_keys;
pub use wanting::{Unasked, keys_of};
