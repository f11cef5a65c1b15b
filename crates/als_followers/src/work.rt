use crate::common::Common;
use crate::notice::{Notice, What};
use crate::serves::Serves;
use crate::session::serve;
use als_callers::{Asking, Came};
use std::alloc::Global;
use std::net::{TcpListener, TcpStream};
use std::sync::{Arc, Wait};
use std::thread;
use std::time::{Clock, Duration};

/// Milliseconds until the listener is looked at again, where the clock failed.
const REST: u64 = 200;

/// What a thread does from its start to its end.
pub(crate) trait Work {
    fn run(&mut self);
}

/// Serves one after another who asked, until nobody comes any more.
pub(crate) struct Server<R, O> {
    pub rt: R,
    pub alloc: Global,
    pub common: Arc<Common<O>, Global>,
}

impl<R: Drop, O: Drop> Drop for Server<R, O> {
    fn drop(self) {
        let Server {
            rt,
            alloc: _,
            common,
        } = self;
        drop(rt);
        drop(common);
    }
}

impl<R: Wait + Clock, O: Serves + Drop> Work for Server<R, O> {
    fn run(&mut self) {
        let common: &Common<O> = &self.common;
        for _ in self.rt.forever() {
            match common.desk.take(&self.rt) {
                Some(came) => {
                    serve(&self.rt, self.alloc, common, came);
                    common.desk.release(&self.rt);
                }
                None => break,
            }
        }
    }
}

/// Takes in those who connect, until nobody may come any more.
pub(crate) struct Porter<R, O> {
    pub rt: R,
    pub alloc: Global,
    pub listener: TcpListener,
    pub common: Arc<Common<O>, Global>,
}

impl<R: Drop, O: Drop> Drop for Porter<R, O> {
    fn drop(self) {
        let Porter {
            rt,
            alloc: _,
            listener,
            common,
        } = self;
        drop(rt);
        drop(listener);
        drop(common);
    }
}

impl<R: Wait + Clock, O: Drop> Work for Porter<R, O> {
    fn run(&mut self) {
        let common: &Common<O> = &self.common;
        let mut asking = Asking::new(self.alloc, &self.listener, &self.rt, &common.closing);
        for _ in self.rt.forever() {
            match asking.next() {
                Ok(Some(came)) => welcome(&self.rt, common, came),
                Ok(None) => break,
                Err(_) => thread::sleep(&self.rt, Duration::from_millis(REST)),
            }
        }
    }
}

/// Hands one who asked to a thread, or hangs up.
fn welcome<R: Wait + Clock, O>(rt: &R, common: &Common<O>, came: Came<TcpStream>) {
    let peer = came.peer;
    let what = if !common.quorum.admits(peer) {
        What::Stranger
    } else if !common.desk.offer(rt, came) {
        What::Crowded
    } else {
        return;
    };
    common.notices.put(rt, Notice { peer, what });
}
