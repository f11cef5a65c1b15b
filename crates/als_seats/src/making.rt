use crate::asker::Asker;
use crate::leader::Leader;
use crate::line::Line;
use crate::seat::Seat;
use std::alloc::{AllocError, Global};
use std::sync::Arc;

/// Makes a leader and `count` askers, each with a seat of its own.
pub fn seats<T: Drop, A: Drop>(
    alloc: Global,
    count: u32,
) -> Result<(Leader<T, A>, Vec<Asker<T, A>>), AllocError> {
    let line = Arc::new(alloc, Line::new(alloc))?;
    let mut seats = Vec::with_capacity(alloc, count as usize)?;
    let mut askers = Vec::with_capacity(alloc, count as usize)?;
    for number in 0..count {
        let seat = Arc::new(alloc, Seat::new(alloc))?;
        seats.push(Arc::try_clone(&seat)?)?;
        askers.push(Asker {
            line: Arc::try_clone(&line)?,
            seat,
            number,
        })?;
    }
    Ok((Leader { line, seats }, askers))
}
