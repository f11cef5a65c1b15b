use crate::redo_lines::RedoLines;
use crate::refusal::Refusal;
use als_compare::Rank;
use als_fault::FaultKind;
use als_inspect::{is_following, rank_of};
use als_peers::{Compares, compare};
use std::alloc::Global;
use std::fs::File;
use std::io::Write;
use std::net::Net;
use std::rt::Files;
use std::time::Clock;

/// Refuses a takeover of a folder's node where a peer holds more or does not answer, before anything is
/// written. Where no peer is named, the rank of a node that is not taken over yet is answered: it was compared
/// with none.
pub fn weigh<R: AllocGlobal + Files<File = File> + Net, W: Write, C: Clock>(
    rt: &R,
    dir: &str,
    peers: &[&str],
    lines: &mut RedoLines<'_, W, C>,
) -> Result<Option<Rank>, Refusal> {
    if !peers.is_empty() {
        compare(rt, dir, peers, lines)?;
        return Ok(None);
    }
    match is_following(rt, dir) {
        Ok(true) => Ok(rank_of(rt, dir).ok()),
        // A folder that is refused is refused by the takeover itself.
        Ok(false) | Err(_) => Ok(None),
    }
}

/// Says that a node was taken over beside no other one, behind what was printed.
pub fn tell_alone<O: Write, E: Write>(
    dir: &str,
    own: Rank,
    output: &mut O,
    errors: &mut E,
) -> Result<(), Refusal> {
    if output.flush().is_err() {
        return Err(Refusal {
            kind: FaultKind::Stream,
            trouble: None,
        });
    }
    let Rank { seal, end } = own;
    // Where it can't be said, `als status` has the rank.
    let _ = writeln!(
        errors,
        "als: {dir}: its rank {seal}/{end} was compared with no other node's (--peer): see that rank= of als status of each is not above it. Where one is, als rewind --dir {dir} --to {end} takes this one back, before it answers clients"
    );
    Ok(())
}

impl<W: Write, C: Clock> Compares for RedoLines<'_, W, C> {
    fn answered(&mut self, peer: &str, rank: Rank, own: Rank) {
        if rank.is_above(own) {
            // Where it can't be said, the status has to do.
            let _ = writeln!(
                self.errors(),
                "als: {peer} holds more: its rank is {}/{}, and this node's {}/{}. Take that one over, or let this one follow it first. Nothing was written",
                rank.seal,
                rank.end,
                own.seal,
                own.end
            );
        }
    }

    fn silent(&mut self, peer: &str, why: FaultKind, own: Rank) {
        // Where it can't be said, the status has to do.
        let _ = writeln!(
            self.errors(),
            "als: {peer} did not say what it holds ({why}); this node's rank is {}/{}. Nothing was written",
            own.seal,
            own.end
        );
    }
}
