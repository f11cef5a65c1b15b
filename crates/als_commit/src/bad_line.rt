use als_request::Mistake;
use als_writer::Flaw;

/// Receives the lines that are neither a transaction nor a decision.
pub trait BadLines {
    /// The line with this number, counted from 1, is not the JSON of a transaction or of a decision.
    fn unreadable(&mut self, number: u64, mistake: Mistake);

    /// The line with this number is a transaction that no database takes.
    fn invalid(&mut self, number: u64, flaw: Flaw);

    /// The line with this number has more bytes than a line may have.
    fn too_long(&mut self, number: u64);
}
