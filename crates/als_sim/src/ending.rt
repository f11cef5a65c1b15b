ghost use Rattle.std.specs.Prelude.{◌≡◌};
ghost use Rattle.als_sim.specs.Status.{status_of};

use crate::left::Left;

/// How a script ended.
#[derive(Clone, Copy, Debug, PartialEq, Eq)]
pub enum Ending {
    /// Each line was run. Steps that were refused are lines of the output.
    Ran(Left),
    /// The world of its first line was refused, and nothing was run.
    WorldRefused,
}

impl Ending {
    /// The exit status: 0 where the lines were run, 3 where the world was refused.
    pub fn status(&self) -> u8
        ensures { result ≡ status_of self.now }
    {
        match self {
            Ending::Ran(_) => 0,
            Ending::WorldRefused => 3,
        }
    }
}
