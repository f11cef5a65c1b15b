ghost use Rattle.std.specs.Prelude.{◌≡◌};

use crate::fault::Fault;

/// What is not sound.
#[derive(Clone, Copy, Debug, PartialEq, Eq)]
pub struct Unsound {
    /// Where the first record that is refused begins; 0: what is refused is no record.
    pub lsn: u64,
    /// Why it is refused.
    pub fault: Fault,
}

impl From<Fault> for Unsound {
    ghost from_gives = { λ cause unsound. unsound ≡ record { lsn = 0; fault = cause } };

    fn from(fault: Fault) -> Unsound {
        Unsound { lsn: 0, fault }
    }
}
