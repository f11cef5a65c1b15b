//! What scripts and record lines say.
#![tactic(auto)]

// A line's words.
mod words;
// A line of a record.
mod record_line;
// The first line of a simulation.
mod world_line;
// A line of one step.
mod step_line;
// A line of one step over a lease.
mod lease_line;
// A line of a reader.
mod read_line;
// A line that stops the standby and begins it again.
mod crash_line;
// A line of several steps.
mod combined_line;
// The devices that a line may name.
mod device;
// A line that makes a device fail.
mod fail_line;
// A line that asks for what is there.
mod show_line;
// Any line of a simulation behind its first.
mod line;
// Which lines of a text are commands.
mod commands;
// The forms of all lines.
mod forms;
// What stands at a word's place.
mod wanted;
// Why a line is bad.
mod explaining;

pub use combined_line::CombinedLine;
pub use commands::{is_command, line_number, number_past};
pub use crash_line::CrashLine;
pub use device::Device;
pub use explaining::{Explanation, explain};
pub use fail_line::FailLine;
pub use forms::{FIRST_OF_MAKE, FIRST_OF_SIM, RECORD_FORMS, STEP_FORMS};
pub use lease_line::LeaseLine;
pub use line::Line;
pub use read_line::ReadLine;
pub use record_line::parse_record;
pub use show_line::ShowLine;
pub use step_line::StepLine;
pub use wanted::Wanted;
pub use words::Words;
pub use world_line::WorldLine;
