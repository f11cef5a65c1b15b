ghost use Rattle.std.specs.Prelude.{◌≡◌};
ghost use Rattle.als_writer.specs.Refusing.{fault_undecided};

use als_engine::Fault;

/// Why a transaction is not decided. Nothing has changed.
#[derive(Clone, Copy)]
pub enum NotDecided {
    /// It is not in doubt.
    NotInDoubt,
    /// The log is owed records, or a part of a record waits: `tidy` comes first.
    Untidy,
    /// The engine takes nothing now.
    State(Fault),
    /// An allocation failed.
    Memory,
}

impl NotDecided {
    /// The fault by which programs print it, where it has a number.
    pub fn fault(&self) -> Option<Fault>
        ensures { result ≡ fault_undecided self.now }
    {
        match *self {
            NotDecided::NotInDoubt => Some(Fault::NotInDoubt),
            NotDecided::Untidy => None,
            NotDecided::State(fault) => Some(fault),
            NotDecided::Memory => Some(Fault::Memory),
        }
    }
}
