use als_engine::Fault;

/// Why a writer goes no further.
#[derive(Clone, Copy, Debug, PartialEq, Eq)]
pub enum Stop {
    /// The power is cut before the next step.
    Cut,
    /// A device failed.
    Device,
    /// An allocation failed.
    Memory,
    /// Something that is promised does not hold.
    Lost(&'static str),
}

impl From<Fault> for Stop {
    fn from(fault: Fault) -> Stop {
        match fault {
            Fault::Device | Fault::Stopped => Stop::Device,
            Fault::Memory => Stop::Memory,
            _ => Stop::Lost("an event of a writer is refused"),
        }
    }
}
