/// The files of a database, open and locked for as long as their folder is held. Those of one that is
/// laid out later are locked by their devices.
pub(crate) struct Locks<F> {
    pub(crate) log: Option<F>,
    pub(crate) control: Option<F>,
    pub(crate) pages: Option<F>,
}

// Written out: a derived drop is proved wherever the locks are dropped, this one only here.
impl<F: Drop> Drop for Locks<F> {
    fn drop(self) {
        let Locks {
            log,
            control,
            pages,
        } = self;
        drop(log);
        drop(control);
        drop(pages);
    }
}

impl<F> Locks<F> {
    /// No file is locked.
    pub(crate) fn none() -> Locks<F> {
        Locks {
            log: None,
            control: None,
            pages: None,
        }
    }
}

/// Whether others may read a file meanwhile.
#[derive(Clone, Copy, Debug, PartialEq, Eq)]
pub(crate) enum Sharing {
    /// No other program may have it.
    Alone,
    /// Others may read it.
    ToRead,
}
