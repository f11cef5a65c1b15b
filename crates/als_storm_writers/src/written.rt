use crate::cuts::Cuts;
use crate::media::{InFolder, InMemory};
use crate::trouble::Trouble;
use crate::writers::{Met, OUTCOMES, Outcome, storm as disturb, undisturbed};
use std::fs::File;
use std::rt::Files;
use std::sync::Wait;

/// Over devices in memory, or over files in a folder.
pub fn storm<R: Print + AllocGlobal + Files<File = File> + Wait>(
    rt: &R,
    seed: u64,
    folder: Option<&str>,
) -> Result<(), Trouble> {
    let met = match folder {
        None => {
            let mut medium = InMemory::new(rt.alloc())?;
            disturb(rt, rt.alloc(), &mut medium, &OUTCOMES, seed)?
        }
        Some(folder) => {
            // Files have one outcome: what was handed to them.
            let mut medium = InFolder::new(rt, folder)?;
            disturb(rt, rt.alloc(), &mut medium, &[Outcome::Newest], seed)?
        }
    };
    let Met {
        ended,
        deeds,
        decided,
        cuts,
    } = met;
    let Cuts { lost, unended } = cuts;
    println!(rt;
        "ended={ended} deeds={deeds} decided={decided} unforced={lost} unended={unended}"
    )?;
    Ok(())
}

/// One writer that nothing disturbs, for a program that makes allocations fail.
pub fn once<R: Print + AllocGlobal + Files<File = File> + Wait>(
    rt: &R,
    seed: u64,
    folder: Option<&str>,
) -> Result<(), Trouble> {
    let stops = match folder {
        None => undisturbed(rt, rt.alloc(), &mut InMemory::new(rt.alloc())?, seed)?,
        Some(folder) => undisturbed(rt, rt.alloc(), &mut InFolder::new(rt, folder)?, seed)?,
    };
    println!(rt; "stops={stops}")?;
    Ok(())
}

/// Over devices in memory, of which a crash leaves the newest.
pub fn small<R: Print + AllocGlobal + Wait>(rt: &R) -> Result<(), Trouble> {
    let mut medium = InMemory::new(rt.alloc())?;
    let met = disturb(rt, rt.alloc(), &mut medium, &[Outcome::Newest], 1)?;
    if met.ended == 0 {
        return Err(Trouble::Lost("no call of a device fails"));
    }
    if met.decided == 0 {
        return Err(Trouble::Lost("no transaction is decided"));
    }
    println!(rt; "writers: nothing lost")?;
    Ok(())
}
