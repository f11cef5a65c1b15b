ghost use Rattle.std.specs.Prelude.{◌≡◌, ℕ, ◌+◌};
ghost use Rattle.als_workers.specs.Pairs.{pairs_in, stops_in, weigh};
ghost use Rattle.als_workers.specs.Rule.{new_pass, has_put, has_taken, was_refused, without_part, joined, Balanced};

use crate::job::Job;
use crossbeam_channel::protocol::{Join, Lesson, Outcome, Protocol, Split};
use crossbeam_channel::{RuledReceiver, RuledSender};
use std::collections::LinkedList;

/// What a pass records: its parts of the first pass's 1024, the pairs of a lease's number and turn
/// that it put and took, how many stops it put and took, and how many jobs the queue handed back to
/// it. Contracts alone see it, and no value of it is made.
pub struct PassState {
    pub parts: u64,
    pub put: LinkedList<(u64, u64)>,
    pub taken: LinkedList<(u64, u64)>,
    pub stops_put: u64,
    pub stops_taken: u64,
    pub handed_back: u64,
}

/// The right to put and take. It takes no bytes and cannot be copied.
pub type Pass = crossbeam_channel::Pass<Job, PassState>;

/// The rule of the queue: each pair was put as often as it was taken plus as often as it is queued,
/// and so were stops.
pub struct Fair;

impl Protocol<Job, PassState> for Fair {
    ghost holds = { Balanced };

    ghost first = { new_pass 1024 };
}

/// A pass of one part is cut off, or two passes are joined.
pub struct Cut;

impl Split<PassState> for Cut {
    ghost left = { without_part };

    ghost right = { λ v. new_pass 1 };
}

impl Join<PassState> for Cut {
    ghost both = { joined };

    ghost spent = { new_pass 0 };
}

/// A pass records that a job came back. It cuts off a pass of no part, which can do nothing.
pub struct Back;

impl Split<PassState> for Back {
    ghost left = { was_refused };

    ghost right = { λ v. new_pass 0 };
}

/// A job enters the queue at its back.
pub struct Puts;

impl Outcome<Job, PassState> for Puts {
    ghost then = { λ v job w. w ≡ has_put v job };
}

impl Lesson<Job, PassState> for Puts {
    ghost use Rattle.std.specs.Prelude.{⊤};

    ghost fact = { λ v jobs. ⊤ };
}

/// A job leaves the queue at its front.
pub struct Takes;

impl Outcome<Job, PassState> for Takes {
    ghost then = { λ v job w. w ≡ has_taken v job };
}

impl Lesson<Job, PassState> for Takes {
    ghost use Rattle.std.specs.Prelude.{⊤};

    ghost fact = { λ v jobs. ⊤ };
}

/// A pass with all parts knows what all threads put and took.
pub struct Total;

impl Lesson<Job, PassState> for Total {
    ghost fact = { λ v jobs. ((h : (ℕ × ℕ) → ℕ) → weigh h v.put ≡ weigh h v.taken + weigh h (pairs_in jobs))
        × (v.stops_put ≡ v.stops_taken + stops_in jobs) };
}

pub type Sender = RuledSender<Job, PassState, Fair>;

pub type Receiver = RuledReceiver<Job, PassState, Fair>;
