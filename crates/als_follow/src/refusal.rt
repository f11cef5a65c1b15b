ghost use Rattle.std.specs.Prelude.{◌≡◌, None};

use crate::scheduler::Scheduler;
use als_engine::Fault;
use als_ship::Fault as SessionFault;
use std::sync::Wait;

/// Why a thread ended early, and its place among the refusals of all threads.
#[derive(Clone, Copy, Debug)]
pub(crate) struct Refusal {
    place: u64,
    fault: SessionFault,
}

impl Refusal {
    /// The next refusal. Stopped is never the first: another refusal stopped the engine, or closed
    /// the scheduler.
    pub fn new<R: Wait>(scheduler: &Scheduler<'_, R>, fault: SessionFault) -> Refusal
        ensures { result.fault ≡ fault }
    {
        let place = scheduler.next_refusal();
        match fault {
            SessionFault::Refused(Fault::Stopped) => Refusal {
                place: u64::MAX,
                fault,
            },
            _ => Refusal { place, fault },
        }
    }

    /// The fault that it is.
    pub fn fault(&self) -> SessionFault
        ensures { result ≡ self.now.fault }
    {
        self.fault
    }
}

/// The first of two refusals.
pub(crate) fn first(one: Option<Refusal>, other: Option<Refusal>) -> Option<Refusal>
    ensures { result ≡ None → one ≡ None }
{
    match (one, other) {
        (Some(a), Some(b)) => Some(if b.place < a.place { b } else { a }),
        (Some(a), None) => Some(a),
        (None, b) => b,
    }
}
