use crate::refusal::Refusal;
use als_fault::FaultKind;
use als_lead::{NewDatabase, lay_out};
use std::fs::File;
use std::io::Write;
use std::rt::Files;
use std::sync::Wait;

/// `als new`: lays out the database of a new primary, and prints its sizes.
pub fn lay_out_new<R: AllocGlobal + Files<File = File> + Wait, O: Write>(
    rt: &R,
    new: NewDatabase<'_>,
    output: &mut O,
) -> Result<(), Refusal> {
    lay_out(rt, new)?;
    let capacity = new.log_blocks.saturating_mul(512);
    let printed = writeln!(output, "pages={} capacity={capacity}", new.pages);
    if printed.is_ok() && output.flush().is_ok() {
        return Ok(());
    }
    // The database is laid out all the same.
    Err(Refusal {
        kind: FaultKind::Stream,
        trouble: None,
    })
}
