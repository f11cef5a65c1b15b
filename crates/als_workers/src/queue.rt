ghost use Rattle.std.specs.Prelude.{◌≡◌};
ghost use Rattle.crossbeam_channel.specs.Ends.{sends_on, receives_on};

use crate::rule::{Receiver, Sender};
use std::sync::atomic::AtomicU64;

/// A bounded queue of jobs. Any thread that has a pass may put and take.
#[derive(Drop)]
pub struct HandOff {
    pub(crate) sender: Sender,
    pub(crate) receiver: Receiver,
    // How many jobs were put and not taken, for `jobs` alone.
    pub(crate) jobs: AtomicU64,
    ghost one: { receives_on receiver ≡ sends_on sender },
}
