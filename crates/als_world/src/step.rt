use als_engine::{Answer, Fault, Reply, Step};
use als_record::{Key, Lsn};

/// One step of a run. Slots are numbered from 0.
#[derive(Clone, Copy, Debug)]
pub enum WorldStep<'a> {
    /// An event of the engine.
    Event(Step<'a>),
    /// A reader asks for a key. It is no event: it goes on in an engine that has stopped.
    Read(Key),
    /// Lends a page, and puts its lease into a slot.
    Lend(u32, usize),
    /// Redoes the next change of the lease in a slot.
    Redo(usize),
    /// Moves the lease in the first slot to the second.
    Hand(usize, usize),
    /// Gives the lease in a slot back to the engine.
    Give(usize),
    /// Drops the lease in a slot. Its page stays lent.
    Drop(usize),
    /// The standby stops, each block of its devices keeps one of its candidates, which these picks
    /// name, and it begins again. The log's device takes the picks first, then the control block's,
    /// then the pages'.
    Crash(&'a [u8]),
}

/// What a step answers.
#[derive(Drop)]
pub enum WorldReply {
    /// What the engine answers.
    Event(Reply),
    /// A page was lent: the number of its lease, and how many changes the lease has.
    Lent { number: u64, batch: usize },
    /// A change was redone: the page_LSN of the lease's page.
    Redone(Lsn),
    /// A lease was handed on, given back or dropped.
    Done,
    /// It has begun again, with a log that ends here.
    Restarted(Lsn),
    /// What the published commits left at the key.
    Answered(Answer),
    /// BadSlot: a slot does not exist, is empty where a lease is taken from it, or is full where one
    /// is put in. The engine's refusals of a lend or a give. NothingToDo of a redo: the lease is
    /// finished. Device or Memory of a restart. Warming of a read before a recovery has ended, and
    /// Stopped where the entry of its reader is refused. Stopped of each step but a crash while the
    /// world is down.
    Refused(Fault),
}
