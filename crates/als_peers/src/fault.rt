ghost use Rattle.std.specs.Prelude.{◌≡◌};
ghost use Rattle.als_peers.specs.declared.fault.Fault.TheVariants.{Memory as OutOfMemory, Node as OfNode};
ghost use Rattle.als_peers.specs.FaultNames.{kind_of, trouble_of};

use als_fault::FaultKind;
use als_folder::Trouble;
use als_inspect::Fault as NodeFault;
use std::alloc::AllocError;

/// Why a node may not be taken over. The numbers are common to all crates.
#[derive(Clone, Copy, Debug, PartialEq, Eq)]
pub enum Fault {
    /// An allocation failed.
    Memory,
    /// The rank of the node itself is not known: its folder is refused.
    Node(NodeFault),
    /// The rank of a peer is above the node's.
    Above,
    /// A peer did not answer.
    Silent,
}

impl Fault {
    /// Which of the faults of all crates it is. A node with a peer above it is LogBehind: its log is behind
    /// that of the peer.
    pub fn kind(self) -> FaultKind
        ensures { result ≡ kind_of self }
    {
        match self {
            Fault::Memory => FaultKind::Memory,
            Fault::Node(fault) => fault.kind(),
            Fault::Above => FaultKind::LogBehind,
            Fault::Silent => FaultKind::Stream,
        }
    }

    /// What of the node's folder is wrong. None: nothing of it is known to be.
    pub fn trouble(self) -> Option<Trouble>
        ensures { result ≡ trouble_of self }
    {
        match self {
            Fault::Node(fault) => fault.trouble(),
            Fault::Memory | Fault::Above | Fault::Silent => None,
        }
    }
}

impl From<NodeFault> for Fault {
    ghost from_gives = { λ cause fault. fault ≡ OfNode cause };

    fn from(fault: NodeFault) -> Fault {
        Fault::Node(fault)
    }
}

impl From<AllocError> for Fault {
    ghost from_gives = { λ _ fault. fault ≡ OutOfMemory };

    fn from(_e: AllocError) -> Fault {
        Fault::Memory
    }
}
