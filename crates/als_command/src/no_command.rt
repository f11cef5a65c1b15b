ghost use Rattle.std.specs.Prelude.{◌≡◌};
ghost use Rattle.als_command.specs.declared.no_command.NoCommand.TheVariants.{Memory};

use std::alloc::AllocError;

/// Why words are no command.
#[derive(Debug, Drop)]
pub enum NoCommand {
    /// They ask for help: its text, for standard output.
    Help(String),
    /// There is a mistake in them: what is said of it, for standard error.
    Mistake(String),
    /// An allocation failed.
    Memory,
}

impl From<AllocError> for NoCommand {
    ghost from_gives = { λ _ e. e ≡ Memory };

    fn from(_e: AllocError) -> NoCommand {
        NoCommand::Memory
    }
}
