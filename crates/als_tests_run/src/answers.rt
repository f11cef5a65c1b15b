use als_engine::{
    Answer, Event, Fault, Fed, FeedFault, History, NotGiven, PageLease, State, Status,
};
use als_page::Page;
use als_record::{Body, Image, LoggedPage, Lsn, Record, TransactionRow};
use als_view::Fault as ReaderFault;
use std::alloc::Global;

/// Stands for none, where a number would be.
pub(crate) const NONE: u64 = 1 << 32;

/// What a script was answered, as numbers, and which events answered Ok.
#[derive(Drop)]
pub(crate) struct Answers {
    numbers: Vec<u64>,
    // The bit of each event that answered Ok.
    made: u32,
    // Memory was not refused.
    is_whole: bool,
}

impl Answers {
    /// Nothing was answered yet.
    pub(crate) fn new(alloc: Global) -> Answers {
        Answers {
            numbers: Vec::new(alloc),
            made: 0,
            is_whole: true,
        }
    }

    /// How many events answered Ok, each counted once.
    pub(crate) fn events_made(&self) -> u32 {
        self.made.count_ones()
    }

    /// The numbers. `None`: allocation failed.
    pub(crate) fn numbers(self) -> Option<Vec<u64>> {
        let Answers {
            numbers,
            is_whole,
            ..
        } = self;
        if is_whole { Some(numbers) } else { None }
    }

    /// One more number.
    pub(crate) fn note(&mut self, number: u64) {
        self.is_whole = self.numbers.push(number).is_ok() && self.is_whole;
    }

    /// An event answered Ok.
    fn note_made(&mut self, event: Event) {
        self.made |= 1u32.wrapping_shl(event as u32);
        self.note(0);
    }

    /// A refusal, by its number, which is not 0.
    fn note_fault(&mut self, fault: Fault) {
        self.note(u64::from(fault.number()));
    }

    /// An event that answers nothing.
    pub(crate) fn unit(&mut self, event: Event, answer: Result<(), Fault>) {
        match answer {
            Ok(()) => self.note_made(event),
            Err(fault) => self.note_fault(fault),
        }
    }

    /// An event that answers an LSN.
    pub(crate) fn lsn(&mut self, event: Event, answer: Result<Lsn, Fault>) {
        match answer {
            Ok(lsn) => {
                self.note_made(event);
                self.note(lsn.0);
            }
            Err(fault) => self.note_fault(fault),
        }
    }

    /// A feed.
    pub(crate) fn fed(&mut self, answer: Result<Fed, FeedFault>) {
        let (taken, records) = match answer {
            Ok(fed) => {
                self.note_made(Event::Feed);
                (fed.taken, fed.records)
            }
            Err(refusal) => {
                self.note_fault(refusal.fault);
                (refusal.taken, refusal.records)
            }
        };
        self.note(taken as u64);
        self.note(records as u64);
    }

    /// A lend: the lease's number, page and batch.
    pub(crate) fn lent(&mut self, answer: Result<PageLease, Fault>) -> Option<PageLease> {
        match answer {
            Ok(lease) => {
                self.note_made(Event::Lend);
                self.note(lease.number());
                self.note(u64::from(lease.page_id()));
                self.note(lease.batch().len() as u64);
                Some(lease)
            }
            Err(fault) => {
                self.note_fault(fault);
                None
            }
        }
    }

    /// A give: of a lease that comes back its number too.
    pub(crate) fn given(&mut self, answer: Result<(), NotGiven>) {
        match answer {
            Ok(()) => self.note_made(Event::Give),
            Err(refused) => {
                self.note_fault(refused.fault);
                self.note(refused.lease.number());
            }
        }
    }

    /// What an engine tells of itself.
    pub(crate) fn status(&mut self, status: Status) {
        self.state(status.state);
        self.note(status.end.0);
        self.note(status.partial as u64);
        self.note(status.acknowledged.0);
        self.note(status.pending as u64);
        self.note(status.leases as u64);
    }

    fn state(&mut self, state: State) {
        match state {
            State::Recovering => self.note(1),
            State::Following => self.note(2),
            State::Refusing { lsn, fault } => {
                self.note(3);
                self.note(lsn.0);
                self.note_fault(fault);
            }
            State::Sealed => self.note(4),
            State::Primary => self.note(5),
            State::Stopped => self.note(6),
        }
    }

    /// A page's number, or none.
    pub(crate) fn page_id(&mut self, page: Option<u32>) {
        self.note(page.map_or(NONE, u64::from));
    }

    /// A history: its epoch, and its last seal.
    pub(crate) fn history(&mut self, history: History) {
        self.note(u64::from(history.epoch()));
        self.note(history.last().0);
    }

    /// A row of the dirty page table, or none.
    pub(crate) fn dirty(&mut self, row: Option<LoggedPage>) {
        match row {
            Some(row) => {
                self.note(u64::from(row.page));
                self.note(row.rec_lsn.0);
            }
            None => self.note(NONE),
        }
    }

    /// The rows of the transaction table.
    pub(crate) fn table(&mut self, answer: Result<Vec<TransactionRow>, Fault>) {
        match answer {
            Ok(rows) => {
                for row in rows {
                    self.row(row);
                }
            }
            Err(fault) => self.note_fault(fault),
        }
    }

    fn row(&mut self, row: TransactionRow) {
        self.note(u64::from(row.trans.0));
        self.note(row.last.0);
        self.note(row.undo_next.0);
    }

    /// A page: its number, its page_LSN, and the images of two slots.
    pub(crate) fn page(&mut self, answer: Result<Page, Fault>) {
        match answer {
            Ok(page) => {
                self.note(u64::from(page.id()));
                self.note(page.lsn().0);
                self.image(&page.image(0));
                self.image(&page.image(1));
            }
            Err(fault) => self.note_fault(fault),
        }
    }

    /// An image: its first byte and its length, or none.
    pub(crate) fn image(&mut self, image: &Image) {
        match image {
            Some(value) => {
                self.note(value.first().map_or(NONE, |byte| u64::from(*byte)));
                self.note(value.len() as u64);
            }
            None => self.note(NONE),
        }
    }

    /// A held record, or none.
    pub(crate) fn record(&mut self, answer: Result<Option<Record>, Fault>) {
        match answer {
            Ok(Some(found)) => {
                self.note(found.lsn.0);
                self.note(found.prev.0);
                self.note(u64::from(found.trans.0));
                self.body(&found.body);
            }
            Ok(None) => self.note(NONE),
            Err(fault) => self.note_fault(fault),
        }
    }

    fn body(&mut self, body: &Body) {
        match body {
            Body::Update {
                key,
                before: _,
                after,
            } => {
                self.note(1);
                self.note(u64::from(key.page));
                self.image(after);
            }
            Body::Compensation {
                undo_next,
                key,
                after,
            } => {
                self.note(2);
                self.note(undo_next.0);
                self.note(u64::from(key.page));
                self.image(after);
            }
            _ => self.note(3),
        }
    }

    /// What a reader is answered: how many commits, the LSN of the last one, and the value.
    pub(crate) fn read(&mut self, answer: Result<Answer, ReaderFault>) {
        match answer {
            Ok(answer) => {
                self.note(answer.commits);
                self.note(answer.lsn.0);
                self.image(&answer.value);
            }
            Err(ReaderFault::Warming) => self.note_fault(Fault::Warming),
            Err(ReaderFault::Stopped) => self.note_fault(Fault::Stopped),
        }
    }
}
