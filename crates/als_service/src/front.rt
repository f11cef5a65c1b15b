use crate::comparing::{Came, answer_within};
use crate::leading::held_history;
use crate::patience::Patience;
use crate::shipping::log_file;
use als_compare::{Rank, Verdict, ask_rank, beginning};
use als_comparing::HeldLog;
use als_operate::{Fault, Following, dial};
use als_record::FIRST_LSN;
use als_ship::Fault as SessionFault;
use std::fs::File;
use std::net::{Net, OpenStream};
use std::rt::Files;
use std::time::Clock;

/// So many times it is asked at most, each time about half of the bytes.
const HALVES: u32 = 32;

/// The first bytes of a held log, up to where each other log of its database begins alike: of them a primary is asked
/// whose log parts from the held one, or is shorter.
pub(crate) struct Front {
    /// The log's file, once it was read.
    held: Option<HeldLog<File>>,
}

impl Drop for Front {
    fn drop(self) {
        let Front { held } = self;
        drop(held);
    }
}

impl Front {
    /// Nothing was read yet.
    pub fn new() -> Front {
        Front { held: None }
    }

    /// What the primary answers about them, of a log that ends there. None: nothing that could be told.
    pub fn ask<R: AllocGlobal + Files<File = File> + Net + Clock>(
        &mut self,
        rt: &R,
        following: Following<'_>,
        patience: &Patience,
        end: u64,
    ) -> Option<Verdict> {
        let history = held_history(rt, following).ok()??;
        let rank = rank_of(rt, following).ok()?;
        let first_seal = history.seals().first().copied();
        let mut end = beginning(first_seal, end, rank.end);
        for _ in 0..HALVES {
            if end <= FIRST_LSN.0 {
                return None;
            }
            match self.ask_below(rt, following, patience, end).ok()?? {
                // The primary's first seal is below that.
                Verdict::Parted => end /= 2,
                verdict => return Some(verdict),
            }
        }
        None
    }

    /// What the primary answers about so many of them, as of a node before any takeover. None: it hung up, or was not
    /// waited for any longer.
    fn ask_below<R: AllocGlobal + Files<File = File> + Net + Clock>(
        &mut self,
        rt: &R,
        following: Following<'_>,
        patience: &Patience,
        end: u64,
    ) -> Result<Option<Verdict>, Fault> {
        let mut held = match self.held.take() {
            Some(held) => held,
            None => HeldLog::new(log_file(rt, following.dir)?),
        };
        let question = held.summary(rt.alloc(), 0, end);
        self.held = Some(held);
        let question = question?;
        let limit = patience.limit(following.timeout, end);
        match answer_within(rt, following, &question, limit)? {
            Came::Answer(answer) => Ok(answer),
            Came::Nothing => Ok(None),
        }
    }
}

/// The rank that the primary answers over a connection of its own.
fn rank_of<R: AllocGlobal + Net>(rt: &R, following: Following<'_>) -> Result<Rank, Fault> {
    let mut writer = dial(rt, following)?;
    let mut reader = writer.try_clone()?;
    match ask_rank(&mut reader, &mut writer) {
        Ok(rank) => Ok(rank),
        Err(fault) => Err(Fault::Session(SessionFault::from(fault))),
    }
}
