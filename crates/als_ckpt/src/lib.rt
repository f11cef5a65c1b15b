//! The control device of a database: the control block, with the stable mark of its log and its
//! phase, and two regions for checkpoints, of which the control block names the one that is
//! published.
#![tactic(auto)]

// Whether the log follows its source, is sealed, or was taken over.
mod phase;
// Where a checkpoint stands.
mod region;
// What a control block says.
mod control_state;
// Why there is no control block.
mod fault;
// A disk that comes back with a fault.
mod refused;
// A control state as the bytes of a block, and back.
mod codec;
// What stands in a region.
mod content;
// What stands in the two regions.
mod regions;
// A checkpoint on its way into a region.
mod begun;
// What comes next of a checkpoint that may be begun.
mod progress;
// Writes of states.
mod made;
// The states written since the last sync.
mod writes;
// Control blocks on a disk.
mod device;
// A control block and its checkpoint, read back from a disk.
mod reading;
// The control block of a database that is running.
mod control;
// Which seals of a history a node has not reached.
mod unreached;
// A control state, and the one that took its place.
mod restated;
// A control state that is written while the node is stopped.
mod again;
// That a block is the control block of one state.
mod laws;

pub use again::{follow_again, forget_checkpoint, forget_unreached};
pub use control::Control;
pub use control_state::ControlState;
pub use device::{clear, read_state};
pub use fault::Fault;
pub use laws::one_state;
pub use phase::Phase;
pub use reading::read_said;
pub use refused::Refused;
pub use region::Region;
pub use restated::Restated;
pub use unreached::Unreached;
