use crate::asking::ask;
use crate::fault::Fault;
use crate::judging::judge;
use als_compare::Rank;
use als_fault::FaultKind;
use als_inspect::rank_of;
use std::alloc::{AllocError, Global};
use std::fs::File;
use std::net::Net;
use std::rt::Files;

/// Receives what peers answer.
pub trait Compares {
    /// A peer has this rank, and the node its own.
    fn answered(&mut self, peer: &str, rank: Rank, own: Rank);
    /// A peer did not answer, and why.
    fn silent(&mut self, peer: &str, why: FaultKind, own: Rank);
}

/// Compares the rank of a folder's node with those of its peers, each a folder or an address. The files are
/// only read. `compares` receives what each one answered.
///
/// Above, Silent: the first peer that keeps the node from being taken over is of a greater rank, or did not
/// answer. Node: the node's own folder is refused. Memory: an allocation failed.
pub fn compare<R: AllocGlobal + Files<File = File> + Net, C: Compares>(
    rt: &R,
    dir: &str,
    peers: &[&str],
    compares: &mut C,
) -> Result<(), Fault> {
    let own = rank_of(rt, dir)?;
    let mut answers: Vec<Option<Rank>> = Vec::new(rt.alloc());
    for peer in peers {
        let answer = asked(rt, peer, own, compares);
        match answers.push(answer) {
            Ok(()) => {}
            Err(_) => return Err(AllocError.into()),
        }
    }
    match judge(own, answers.as_slice()) {
        Ok(()) => Ok(()),
        Err(at) => Err(kept_by(answers.as_slice(), at)),
    }
}

/// What a peer answers.
fn asked<R: AllocGlobal + Files<File = File> + Net, C: Compares>(
    rt: &R,
    peer: &str,
    own: Rank,
    compares: &mut C,
) -> Option<Rank> {
    match ask(rt, peer) {
        Ok(rank) => {
            compares.answered(peer, rank, own);
            Some(rank)
        }
        Err(why) => {
            compares.silent(peer, why, own);
            None
        }
    }
}

/// Why the peer at a place keeps a node from being taken over.
fn kept_by(answers: &[Option<Rank>], at: usize) -> Fault {
    match answers.get(at) {
        Some(Some(_)) => Fault::Above,
        Some(None) | None => Fault::Silent,
    }
}
