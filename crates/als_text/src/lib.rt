//! The log text that raw records make, each in its one spelling, whether or not a log may hold it; and how a held
//! record, image or row is printed.
#![tactic(auto)]

// The images of a raw record.
mod raw_image;
// What a raw record says.
mod raw_body;
// A record with numbers and values that need not be those of a record that is held.
mod raw_record;
// A record with its place, spelled as it is.
mod appending;
// The text so far.
mod log_text;
// A held image as text.
mod shown_image;
// A held record as text.
mod shown_record;
// A row of the transaction table as text.
mod shown_row;

pub use log_text::LogText;
pub use raw_body::RawBody;
pub use raw_image::RawImage;
pub use raw_record::RawRecord;
pub use shown_image::ShownImage;
pub use shown_record::ShownRecord;
pub use shown_row::ShownRow;
