use als_record::Lsn;
use als_sending::Marks;

/// What a session tells of its follower, of which the last is noted.
pub(crate) struct Noted<'a, M> {
    marks: &'a mut M,
    /// Whether the follower asked for the log, and was admitted.
    begun: bool,
    /// The LSN that it acknowledged last.
    acknowledged: Option<Lsn>,
}

impl<M> Drop for Noted<'_, M> {
    fn drop(self) {
        let Noted {
            marks: _,
            begun: _,
            acknowledged: _,
        } = self;
    }
}

impl<'a, M> Noted<'a, M> {
    /// Nothing yet.
    pub fn new(marks: &'a mut M) -> Noted<'a, M> {
        Noted {
            marks,
            begun: false,
            acknowledged: None,
        }
    }

    pub fn has_begun(&self) -> bool {
        self.begun
    }

    pub fn acknowledged(&self) -> Option<Lsn> {
        self.acknowledged
    }
}

impl<M: Marks> Marks for Noted<'_, M> {
    // What it hears, the marks behind it hear.
    ghost heard = { λ noted. M.heard noted.marks.now };

    ghost begun = { λ noted. M.begun noted.marks.now };

    fn begin(&mut self, from: Lsn) {
        self.begun = true;
        self.marks.begin(from);
    }

    fn send(&mut self) {
        self.marks.send();
    }

    fn acknowledge(&mut self, lsn: Lsn) {
        self.acknowledged = Some(lsn);
        self.marks.acknowledge(lsn);
    }
}
