use crate::notices::Notices;
use crate::session::Terms;
use als_callers::{Came, Closing, Desk};
use als_quorum::{Quorum, Tail};
use std::alloc::Global;
use std::net::TcpStream;
use std::sync::Arc;

/// What all sessions of a log have in common.
pub(crate) struct Common<O> {
    /// What each of them reads the log from.
    pub source: O,
    pub tail: Arc<Tail, Global>,
    /// What they acknowledged, and who may come.
    pub quorum: Arc<Quorum, Global>,
    pub terms: Terms,
    pub closing: Closing,
    pub desk: Desk<Came<TcpStream>>,
    pub notices: Notices,
}

impl<O: Drop> Drop for Common<O> {
    fn drop(self) {
        let Common {
            source,
            tail,
            quorum,
            terms: _,
            closing,
            desk,
            notices,
        } = self;
        drop(source);
        drop(tail);
        drop(quorum);
        drop(closing);
        drop(desk);
        drop(notices);
    }
}
