//! What readers of a standby see: the committed transactions that are published. There is one
//! publisher, and readers that never wait.
#![tactic(auto)]

// What a reader is answered.
mod answer;
// A change of a copy.
mod change;
// Why a reader gets no answer.
mod fault;
// What a reader saw and was told.
mod front;
// The history of all commits that were queued.
mod history;
// The keys' images.
mod images;
// A reader inside a copy.
mod inside;
// What holds of every answer.
mod laws;
// A look into a copy.
mod looking;
// How a view begins.
mod opening;
// The images of many keys.
mod many;
// A commit of the published list.
mod past_commit;
// What a value was.
mod past_value;
// The publisher.
mod publisher;
// A reader.
mod reader;
// A read of what is published now.
mod reading_now;
// A read of many keys.
mod reading_many;
// The rule of the two copies.
mod rule;
// What the two copies have in common.
mod state;
// Commits leave the queue in which they wait.
mod taking;
// The view of a log.
mod view;
// One of the two copies.
mod view_copy;

pub use answer::Answer;
pub use change::Change;
pub use fault::Fault;
pub use front::Front;
pub use history::{Law, Token};
pub use inside::Inside;
pub use laws::{
    a_view_goes_on, an_answer_is_of_a_front, many_are_of_one_list, shown_commits_may_be_published,
    what_is_known_is_published,
};
pub use many::Many;
pub use opening::new;
pub use publisher::Publisher;
pub use reader::Reader;
pub use reading_now::read_now;
pub use rule::{CopyReader, CopyReading, CopyWriter, Known, Published};
pub use state::{Marked, State};
pub use view::View;
pub use view_copy::ViewCopy;

/// What a publisher tells, for any reader of its view.
pub type Told = Front;
