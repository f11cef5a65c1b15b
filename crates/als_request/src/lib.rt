//! A transaction as a client writes it in JSON, and the decision of one in doubt.
//!
//!     {"if":[{"key":[P,S],"is":"ab"}, {"key":[P,S],"is":null}, {"key":[P,S],"unchanged_since":L}],
//!      "set":[{"key":[P,S],"to":"cd"}, {"key":[P,S],"to":null}]}
//!     {"trans":T,"commit":true}
//!
//! 1. `if` may be left out; then nothing is compared. `set` is required.
//! 2. A key is a page and a slot. A value is hexadecimal digits of either case, at most 31 bytes;
//!    null is no value.
//! 3. An object has the members above in any order and no others, each once.
//! 4. A decision names a transaction by its number, and says whether it commits.
//! 5. Where one text may ask for either, `"prepare":true` beside `set` prepares a transaction, and
//!    `{"decide":..}` decides one.
//! 6. What is read is equal to a definition over the JSON value. Whether the database has the key, and how
//!    many sets a transaction may have, is for the writer to judge.
#![tactic(auto)]

// Why a text is not a transaction.
mod mistake;
// A key, a number and a value.
mod parts;
// One comparison and one set.
mod members;
// A text as JSON.
mod parsing;
// A transaction.
mod reading;
// A decision.
mod deciding;
// Either of them.
mod working;

pub use deciding::decision;
pub use mistake::{Mistake, Wrong};
pub use reading::transaction;
pub use working::work;
