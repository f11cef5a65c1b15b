//! Log records: their types, their one spelling as bytes, and what a list of them means.
#![tactic(auto)]

// Where a record stands in the log.
mod lsn;
// The numbers that bound a log.
mod limits;
// Who wrote a record.
mod trans_id;
// What a record writes to.
mod key;
// What a key has, before or after.
mod image;
// An image in 32 bytes.
mod kept_image;
// One write of redo.
mod change;
// The rows of a primary's checkpoint.
mod rows;
// A record and what it says.
mod record;
// An image that is not copied.
mod image_view;
// Rows that are not copied.
mod rows_view;
// A record that is not copied.
mod record_view;
// The record of an update in one piece.
mod kept_update;
// Why bytes are no record.
mod fault;
// The header of a log text.
mod header;
// Numbers, keys and images in bytes.
mod fields;
// A header to bytes and back.
mod header_codec;
// Bytes to views of bodies.
mod bodies;
// The rows of a checkpoint copied, also out of bytes.
mod row_reading;
// Records copied, and shown.
mod copying;
// Bytes to views of records.
mod viewing;
// Bytes to records.
mod decoding;
// How many bytes a record has.
mod lengths;
// Rows to bytes.
mod row_writing;
// Records to bytes.
mod encoding;
// What redo does for a record.
mod changes;
// What an unended transaction is doing.
mod transaction_state;
// A row of the transaction table.
mod transaction_row;
// Why a record may not follow a log.
mod cause;
// That bytes are one record, and a text one log.
mod laws;

pub use cause::Cause;
pub use change::Change;
pub use decoding::decode;
pub use encoding::encode;
pub use fault::Fault;
pub use header::LogHeader;
pub use image::{Image, Value};
pub use image_view::ImageView;
pub use kept_image::KeptImage;
pub use kept_update::KeptUpdate;
pub use key::Key;
pub use laws::{one_log, one_spelling};
pub use lengths::encoded_len;
pub use limits::{
    BLOCK_LEN, FIRST_LSN, HEAD_LEN, PAGE_LIMIT, RECORD_LIMIT, SLOT_COUNT, TRANSACTION_LIMIT,
    VALUE_LIMIT,
};
pub use lsn::Lsn;
pub use record::{Body, Record};
pub use record_view::{BodyView, RecordView};
pub use rows::{LoggedPage, LoggedTransaction, PageRows, TransactionRows};
pub use rows_view::{RowsView, SpelledRows};
pub use trans_id::TransId;
pub use transaction_row::TransactionRow;
pub use transaction_state::TransactionState;
pub use viewing::view_record;
