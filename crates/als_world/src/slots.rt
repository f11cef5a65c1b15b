ghost use Rattle.std.specs.Prelude.{◌≡◌, ◌<◌, length, IfOk};
ghost use Rattle.als_world.specs.Slots.{no_leases, lease_at, has_lease, has_room};
ghost use Rattle.als_world.specs.Slots.{with_lease, without_lease};

use als_lease::PageLease;
use std::alloc::{AllocError, Global};
use std::marker::Model;

/// The worker slots of a world: each has a lease, or is empty.
pub struct Slots {
    leases: Vec<Option<PageLease>>,
}

impl Model for Slots {
    ghost use Rattle.std.specs.Prelude.{List, Option};
    ghost use Rattle.als_lease.specs.Lease.{Leased};

    ghost Value = { List (Option Leased) };

    ghost view = { λ s. s.leases.items };
}

// Written out: a derived drop is proved wherever slots are dropped, this one only here.
impl Drop for Slots {
    fn drop(self) {
        let Slots { leases } = self;
        drop(leases);
    }
}

impl Slots {
    /// So many empty slots.
    pub fn new(alloc: Global, count: usize) -> Result<Slots, AllocError>
        ensures { IfOk result (λ s. s ≡ no_leases count) }
    {
        let mut leases = Vec::with_capacity(alloc, count)?;
        for _ in 0..count {
            leases.push_reserved(None);
        }
        Ok(Slots { leases })
    }

    /// Whether a slot has a lease.
    pub fn is_full(&self, slot: usize) -> bool
        ensures { result ≡ has_lease self.now slot }
    {
        slot < self.leases.len() && self.leases[slot].is_some()
    }

    /// Whether a slot exists and is empty.
    pub fn is_free(&self, slot: usize) -> bool
        ensures { result ≡ has_room self.now slot }
    {
        slot < self.leases.len() && self.leases[slot].is_none()
    }

    /// Takes the lease out of a slot; None where the slot is empty or does not exist.
    pub fn take(&mut self, slot: usize) -> Option<PageLease>
        ensures lease { result ≡ lease_at self.old slot }
        ensures emptied { self.new ≡ without_lease self.old slot }
    {
        if slot >= self.leases.len() {
            return None;
        }
        self.leases[slot].take()
    }

    /// Puts a lease into a slot.
    pub fn put(&mut self, slot: usize, lease: PageLease)
        requires { slot < length self.now }
        ensures { self.new ≡ with_lease self.old slot lease }
    {
        self.leases[slot] = Some(lease);
    }

    /// Empties each slot.
    pub fn clear(&mut self)
        ensures { self.new ≡ no_leases (length self.old) }
    {
        for slot in 0..self.leases.len() {
            self.leases[slot] = None;
        }
    }
}
