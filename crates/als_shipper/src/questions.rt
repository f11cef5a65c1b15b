use std::io::{Read, Write};

/// Answers who asks a question in place of a session: what log it is, or what rank its node has.
pub trait Questions {
    /// Whether questions are answered. Else who asks one is passed over, as one who asks for no log.
    fn are_answered(&self) -> bool;

    /// Reads a question and answers it. Whoever does not get an answer asks again.
    fn answer<I: Read, W: Write>(&mut self, reader: &mut I, writer: &mut W);
}

/// Answers nobody.
#[derive(Clone, Copy, Debug)]
pub struct Unanswered;

impl Questions for Unanswered {
    fn are_answered(&self) -> bool {
        false
    }

    fn answer<I: Read, W: Write>(&mut self, _reader: &mut I, _writer: &mut W) {}
}
