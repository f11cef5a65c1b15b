use crate::adopted::Adopted;
use als_epochs::History;
use std::sync::{Mutex, Wait};

/// The history that a standby adopted last, which the sessions of its followers share with it.
pub struct Era {
    adopted: Mutex<Adopted>,
}

impl Drop for Era {
    fn drop(self) {
        let Era { adopted } = self;
        drop(adopted);
    }
}

impl Era {
    /// The history with which the standby was opened.
    pub fn new(history: History) -> Era {
        Era {
            adopted: Mutex::new(Adopted::at_opening(history)),
        }
    }

    /// Another history was adopted. Until `settle` no session is opened.
    pub fn turn<R: Wait>(&self, rt: &R, history: History) {
        let mut adopted = self.adopted.lock(rt);
        let turned = (*adopted).turned(history);
        *adopted = turned;
    }

    /// The control block was synced: what was adopted is durable.
    pub fn settle<R: Wait>(&self, rt: &R) {
        let mut adopted = self.adopted.lock(rt);
        let settled = (*adopted).settled();
        *adopted = settled;
    }

    /// What was adopted last. None: it is not durable yet.
    pub fn now<R: Wait>(&self, rt: &R) -> Option<Adopted> {
        let adopted = *self.adopted.lock(rt);
        adopted.durable()
    }

    /// The number of the last adoption.
    pub fn number<R: Wait>(&self, rt: &R) -> u64 {
        self.adopted.lock(rt).number
    }
}
