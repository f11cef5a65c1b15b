use crate::questions::Questions;
use als_comparing::answer_question;
use als_sending::Growing;
use std::alloc::Global;
use std::io::{Read, Write};

/// Answers by a log that is read beside the session.
pub struct LogQuestions<G> {
    alloc: Global,
    log: G,
}

impl<G: Drop> Drop for LogQuestions<G> {
    fn drop(self) {
        let LogQuestions { alloc: _, log } = self;
        drop(log);
    }
}

impl<G> LogQuestions<G> {
    /// By this log.
    pub fn new(alloc: Global, log: G) -> LogQuestions<G> {
        LogQuestions { alloc, log }
    }
}

impl<G: Growing> Questions for LogQuestions<G> {
    fn are_answered(&self) -> bool {
        true
    }

    // Who goes away before it is answered is nobody's concern.
    fn answer<I: Read, W: Write>(&mut self, reader: &mut I, writer: &mut W) {
        let _ = answer_question(self.alloc, &mut self.log, reader, writer);
    }
}
