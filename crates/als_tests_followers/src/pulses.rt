ghost use Rattle.std.specs.Prelude.{Some};
ghost use Rattle.als_sending.specs.Accounts.{heard_of, begun_of};

use crate::made::{Endless, PAGES, byte_at};
use als_epochs::History;
use als_followers::{NodeSource, Pulse, Serves, Tail};
use als_record::{LogHeader, Lsn};
use als_sending::{Heard, Marks};
use als_ship::Fault;
use als_wire::{write_acknowledged, write_data, write_epochs, write_resume};
use std::alloc::Global;
use std::sync::{Arc, Wait};
use std::test::Fail;
use std::time::Clock;

/// The pulse of a node that nobody sends to.
#[derive(Drop)]
struct Still;

impl Pulse for Still {
    fn beats(&self) -> bool {
        false
    }
}

/// What was heard of a follower, of which nobody asks.
#[derive(Drop)]
struct Ears {
    account: Heard,
}

impl Marks for Ears {
    ghost heard = { λ ears. heard_of ears.account };

    ghost begun = { λ ears. Some (begun_of ears.account) };

    fn begin(&mut self, from: Lsn) {
        self.account.begin(from);
    }

    fn send(&mut self) {}

    fn acknowledge(&mut self, lsn: Lsn) {
        self.account.acknowledge(lsn);
    }
}

/// What a follower tells that goes on from an offset and answers two frames. None: allocation failed.
fn told(alloc: Global, from: u64) -> Option<Vec<u8>> {
    let mut told = Vec::new(alloc);
    let header = LogHeader { pages: PAGES };
    write_resume(&mut told, Lsn(from), header, &History::empty()).ok()?;
    write_acknowledged(&mut told, Lsn(116)).ok()?;
    write_acknowledged(&mut told, Lsn(116)).ok()?;
    Some(told)
}

/// The history, the log from 16 to 116, and the empty frame. None: allocation failed.
fn log_alone(alloc: Global) -> Option<Vec<u8>> {
    let mut piece = [0u8; 100];
    let mut at = 16;
    for byte in piece.iter_mut() {
        *byte = byte_at(at);
        at = at.saturating_add(1);
    }
    let mut sent = Vec::new(alloc);
    write_epochs(&mut sent, &History::empty()).ok()?;
    write_data(&mut sent, 0, 16, &piece).ok()?;
    write_data(&mut sent, 0, 116, &[]).ok()?;
    Some(sent)
}

/// A session of a log up to 116 that beats after a third of a second, if at all. None: allocation failed.
fn session<S: Serves>(alloc: Global, source: &S) -> Option<(Result<u64, Fault>, Vec<u8>)> {
    let mut ears = Ears {
        account: Heard::Nothing,
    };
    let told = told(alloc, 16)?;
    let mut reader = told.as_slice();
    let mut sent = Vec::new(alloc);
    let answer = source.serve(alloc, &mut ears, 16, &mut reader, &mut sent);
    Some((answer, sent))
}

/// Whether a session ends in order, with the log alone, where no pulse beats. None: allocation failed.
fn ends<R: Wait + Clock + Clone + Drop>(rt: &R, alloc: Global) -> Option<bool> {
    let tail = Arc::new(alloc, Tail::new(Lsn(116))).ok()?;
    let pulse = Arc::new(alloc, Still).ok()?;
    let own = rt.clone().ok()?;
    let source = NodeSource::under(own, alloc, Endless, tail, pulse, History::empty(), 1).ok()?;
    let (answer, sent) = session(alloc, &source)?;
    Some(answer == Ok(100) && sent.as_slice() == log_alone(alloc)?.as_slice())
}

/// Whether a session beats where a node has no primary: a follower that goes away is met then. None: allocation
/// failed.
fn beats<R: Wait + Clock + Clone + Drop>(rt: &R, alloc: Global) -> Option<bool> {
    let tail = Arc::new(alloc, Tail::new(Lsn(116))).ok()?;
    let own = rt.clone().ok()?;
    let source = NodeSource::new(own, alloc, Endless, tail, History::empty(), 1).ok()?;
    let (answer, sent) = session(alloc, &source)?;
    Some(answer == Err(Fault::Cut) && sent.len() > log_alone(alloc)?.len())
}

#[test]
fn a_session_ends_where_no_pulse_beats(rt: HostRuntime) -> Result<(), Fail> {
    let alloc = rt.alloc();
    assert!(rt; ends(&rt, alloc) == Some(true));
    Ok(())
}

#[test]
fn a_session_beats_where_its_node_has_no_primary(rt: HostRuntime) -> Result<(), Fail> {
    let alloc = rt.alloc();
    assert!(rt; beats(&rt, alloc) == Some(true));
    Ok(())
}
