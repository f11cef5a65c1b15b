use crate::outages::Outages;
use als_drive::Progress;
use als_folder::NameWatch;
use als_operate::Fault;
use als_record::Lsn;
use std::fs::File;
use std::rt::Files;
use std::time::Clock;

/// Passes on what a standby reports. Whenever bytes come, and once a second at most, it looks whether the
/// files of the folder still have their names: if not, the next force fails, and nothing is acknowledged.
pub(crate) struct Named<'a, P, R> {
    pub inner: &'a mut P,
    pub names: NameWatch,
    pub rt: R,
}

impl<P, R: Drop> Drop for Named<'_, P, R> {
    fn drop(self) {
        let Named {
            inner: _,
            names,
            rt,
        } = self;
        drop(names);
        drop(rt);
    }
}

impl<P: Progress, R: Drop> Progress for Named<'_, P, R> {
    fn waits(&mut self, changes: u64) {
        self.inner.waits(changes);
    }
}

impl<P: Outages, R: Files<File = File> + Clock + Drop> Outages for Named<'_, P, R> {
    fn outage(&mut self, fault: Option<Fault>, millis: u64) {
        self.inner.outage(fault, millis);
    }

    fn unopened(&mut self, fault: Fault, millis: u64) {
        self.inner.unopened(fault, millis);
    }

    fn refusal(&mut self, fault: Fault, millis: u64) {
        self.inner.refusal(fault, millis);
    }

    fn hang_ups(&mut self, count: u32) {
        self.inner.hang_ups(count);
    }

    fn uncompared(&mut self) {
        self.inner.uncompared();
    }

    fn nearly_full(&mut self, end: Lsn, capacity: u64) {
        self.inner.nearly_full(end, capacity);
    }

    fn bytes_came(&mut self) {
        self.names.look(&self.rt);
    }
}
