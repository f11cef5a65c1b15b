//! Which record may follow a valid log: what is kept of the log, and the causes for which a record
//! is refused.
#![tactic(auto)]

// What is read before it is asked for.
mod ahead;
// Each cause by itself.
mod causes;
// The commit that a record makes.
mod committing;
// Why a record is not admitted.
mod fault;
// What only judging needs.
mod judging;
// What a key has now, and who holds it.
mod key_now;
// What is kept of a key.
mod key_state;
// What is kept of all keys.
mod keys;
// What the causes ask of a transaction.
mod past;
// The surviving updates of each transaction.
mod survivors;
// Those of one transaction.
mod updates;
// What is kept of a log, and asked of a record.
mod validator;

pub use fault::Fault;
pub use key_now::KeyNow;
pub use validator::Validator;
