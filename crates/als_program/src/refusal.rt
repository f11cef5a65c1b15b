use als_fault::FaultKind;
use als_folder::{Part, Trouble, Wrong};
use als_inspect::Fault as InspectFault;
use als_lookback::Fault as LookFault;
use als_operate::Fault as OperateFault;
use als_peers::Fault as PeerFault;
use als_renew::Fault as RenewFault;
use als_rewind::Fault as RewindFault;
use std::alloc::AllocError;

/// Why a command on files is refused.
#[derive(Clone, Copy, Debug)]
pub struct Refusal {
    /// Which of the faults of all crates it is.
    pub kind: FaultKind,
    /// What is wrong with the files, where that is known.
    pub trouble: Option<Trouble>,
}

impl Refusal {
    /// An option is out of its range, or has no effect.
    pub const BAD_CONFIG: Refusal = Refusal {
        kind: FaultKind::BadConfig,
        trouble: None,
    };

    /// Whether another program has the folder, or one of its files by a name in another folder.
    pub fn is_of_lock(self) -> bool {
        matches!(
            self.trouble,
            Some(Trouble {
                part: _,
                wrong: Wrong::Locked
            })
        )
    }

    /// Whether another program has the folder itself.
    pub fn is_of_folder_lock(self) -> bool {
        matches!(
            self.trouble,
            Some(Trouble {
                part: Part::Itself,
                wrong: Wrong::Locked
            })
        )
    }
}

impl From<OperateFault> for Refusal {
    fn from(fault: OperateFault) -> Refusal {
        Refusal {
            kind: fault.kind(),
            trouble: fault.trouble(),
        }
    }
}

impl From<InspectFault> for Refusal {
    fn from(fault: InspectFault) -> Refusal {
        Refusal {
            kind: fault.kind(),
            trouble: fault.trouble(),
        }
    }
}

impl From<AllocError> for Refusal {
    fn from(_e: AllocError) -> Refusal {
        Refusal {
            kind: FaultKind::Memory,
            trouble: None,
        }
    }
}

impl From<LookFault> for Refusal {
    fn from(fault: LookFault) -> Refusal {
        Refusal {
            kind: fault.kind(),
            trouble: fault.trouble(),
        }
    }
}

impl From<RenewFault> for Refusal {
    fn from(fault: RenewFault) -> Refusal {
        Refusal {
            kind: fault.kind(),
            trouble: fault.trouble(),
        }
    }
}

impl From<RewindFault> for Refusal {
    fn from(fault: RewindFault) -> Refusal {
        Refusal {
            kind: fault.kind(),
            trouble: fault.trouble(),
        }
    }
}

impl From<PeerFault> for Refusal {
    fn from(fault: PeerFault) -> Refusal {
        Refusal {
            kind: fault.kind(),
            trouble: fault.trouble(),
        }
    }
}
