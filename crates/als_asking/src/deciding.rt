ghost use Rattle.std.specs.Prelude.{◌≡◌};
ghost use Rattle.als_asking.specs.Deciding.{IsDecided, IsToldDecided, IsListed};

use crate::commits::Commits;
use crate::taking::first_of;
use crate::told::Told;
use crate::unread::Unread;
use als_engine::Decision;
use als_record::TransId;
use als_request::{Mistake, decision};
use als_writer::Work;
use std::alloc::Global;

/// Decides the transaction that a body names, and returns the answer to the request.
pub fn decide<C: Commits>(alloc: Global, commits: &mut C, body: &[u8]) -> Told
    ensures { IsDecided C.commits body.now commits.old result commits.new }
{
    match decision(alloc, body) {
        Ok((trans, verdict)) => decide_one(alloc, commits, trans, verdict),
        Err(Mistake::Memory) => Told::Unread(Unread::Memory),
        Err(mistake) => Told::Unread(Unread::One(mistake)),
    }
}

/// Decides a transaction.
fn decide_one<C: Commits>(alloc: Global, commits: &mut C, trans: TransId, verdict: Decision) -> Told
    ensures { IsToldDecided C.commits commits.old trans verdict result commits.new }
{
    let mut asked = Vec::new(alloc);
    match asked.push(Work::Decide { trans, verdict }) {
        Ok(()) => Told::Decision {
            trans,
            verdict,
            outcome: first_of(commits.commit(asked).as_slice()),
        },
        Err(_) => Told::Unread(Unread::Memory),
    }
}

/// The transactions in doubt, as the answer to the request.
#[tactic(auto, unfolding(crate::specs::Deciding::IsListed))]
pub fn list<C: Commits>(commits: &C) -> Told
    ensures { IsListed C.doubts commits.now result }
{
    match commits.in_doubt() {
        Some(found) => Told::InDoubt(found),
        None => Told::Unread(Unread::Memory),
    }
}
