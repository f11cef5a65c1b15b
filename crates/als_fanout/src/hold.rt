use als_folder::Folder;
use als_followers::NodeSource;
use std::alloc::Global;
use std::fs::File;
use std::sync::{Arc, Condvar, Mutex, Wait};

/// What sessions of a log share.
pub(crate) type Log<R> = Arc<NodeSource<R, File>, Global>;

/// A node's folder that is held, and the log of its node. Nobody writes it meanwhile.
pub(crate) struct Opened<R> {
    pub folder: Folder,
    pub log: Log<R>,
}

impl<R: Drop> Drop for Opened<R> {
    fn drop(self) {
        let Opened { folder, log } = self;
        drop(log);
        drop(folder);
    }
}

/// How many sessions a folder has, and what they send.
struct Held<R> {
    sessions: u32,
    /// None: it is free.
    opened: Option<Opened<R>>,
    /// It gave no log to those who are there.
    is_refused: bool,
    /// It is opened no more.
    is_closed: bool,
}

impl<R: Drop> Drop for Held<R> {
    fn drop(self) {
        let Held {
            sessions: _,
            opened,
            is_refused: _,
            is_closed: _,
        } = self;
        drop(opened);
    }
}

impl<R: Drop> Held<R> {
    /// Whether a session waits for the folder.
    fn is_awaited(&self) -> bool {
        self.sessions > 0 && self.opened.is_none() && !self.is_refused && !self.is_closed
    }

    /// The log, for one session more.
    fn share(&self) -> Option<Log<R>> {
        let opened = self.opened.as_ref()?;
        Arc::try_clone(&opened.log).ok()
    }

    /// One session less. The last one lets the folder go.
    fn leave(&mut self) {
        self.sessions = self.sessions.saturating_sub(1);
        if self.sessions == 0 {
            self.opened = None;
            self.is_refused = false;
        }
    }
}

/// The folder of a node, between the sessions that want it and the thread that opens it.
pub(crate) struct Hold<R> {
    held: Mutex<Held<R>>,
    changed: Condvar,
}

impl<R: Drop> Drop for Hold<R> {
    fn drop(self) {
        let Hold { held, changed: _ } = self;
        drop(held);
    }
}

impl<R: Drop> Hold<R> {
    /// A free folder.
    pub fn new() -> Hold<R> {
        let held = Held {
            sessions: 0,
            opened: None,
            is_refused: false,
            is_closed: false,
        };
        Hold {
            held: Mutex::new(held),
            changed: Condvar::new(),
        }
    }

    /// One session more: it wants the folder.
    pub fn ask<C: Wait>(&self, rt: &C) {
        let mut held = self.held.lock(rt);
        held.sessions = held.sessions.saturating_add(1);
    }

    /// Waits for the folder's log. None: it gave none.
    pub fn wait<C: Wait>(&self, rt: &C) -> Option<Log<R>> {
        let held = self.held.lock(rt);
        let held = self.changed.wait_while(rt, held, |held| held.is_awaited());
        held.share()
    }

    /// One session less. The last one lets the folder go.
    pub fn leave<C: Wait>(&self, rt: &C) {
        self.held.lock(rt).leave();
    }

    /// Whether a session waits for the folder.
    pub fn is_awaited<C: Wait>(&self, rt: &C) -> bool {
        self.held.lock(rt).is_awaited()
    }

    /// The folder was opened. None: it gave no log.
    pub fn give<C: Wait>(&self, rt: &C, opened: Option<Opened<R>>) {
        let mut held = self.held.lock(rt);
        if held.is_awaited() {
            held.is_refused = opened.is_none();
            held.opened = opened;
        } else {
            drop(opened);
        }
        drop(held);
        self.changed.notify_all();
    }

    /// Nobody waits any more.
    pub fn close<C: Wait>(&self, rt: &C) {
        self.held.lock(rt).is_closed = true;
        self.changed.notify_all();
    }
}
