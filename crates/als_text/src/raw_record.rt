use crate::raw_body::RawBody;

/// A record whose place is the end of the text that it comes into, with numbers and values that need
/// not be those of a record that is held.
#[derive(Drop)]
pub struct RawRecord {
    /// 0 where it is of no transaction.
    pub trans: u32,
    /// The PrevLSN that it gives itself.
    pub prev: Option<u64>,
    pub body: RawBody,
}
