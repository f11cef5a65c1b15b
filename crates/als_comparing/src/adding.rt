ghost use Rattle.std.specs.Prelude.{◌≡◌, ◌≤◌, ◌<◌, ◌++◌, ℕ, List, length, take, IfOk, IfErr, OnOk};
ghost use Rattle.als_ship.specs.declared.fault.Fault.TheVariants as fault;
ghost use Rattle.als_sending.specs.Reads.{Read as AnyRead, AreOf};
ghost use Rattle.als_compare.specs.Summaries.{Sums};
ghost use Rattle.als_comparing.specs.Summed.{SumsFront};
ghost use Rattle.als_comparing.specs.Answers.{IsOfReading};

use als_compare::Summing;
use als_sending::Growing;
use als_ship::{Fault, PIECE_LIMIT};
use std::alloc::Global;
use std::vec::Vec;

/// Adds the next piece of a log's text below there.
fn add_piece<G: Growing>(
    log: &mut G,
    summing: &mut Summing,
    to: u64,
    room: &mut [u8],
) -> Result<(), Fault>
    requires inside { to ≤ G.shown log.old }
    requires below { summing.old.end < to }
    requires room { length room.old ≡ 65536 }
    ensures sums { OnOk result (SumsFront (G.reads log.old) summing.old
        → SumsFront (G.reads log.new) summing.new) }
    ensures within { summing.new.end ≤ to }
    ensures reads { (more : List AnyRead) × (G.reads log.new ≡ G.reads log.old ++ more) }
    ensures shown { G.shown log.new ≡ G.shown log.old }
    ensures seals { G.seals log.new ≡ G.seals log.old }
    ensures pages { G.pages log.new ≡ G.pages log.old }
    ensures fails { IfErr result (λ f. f ≡ fault.Stream) }
{
    let at = summing.end();
    let len = (to - at).min(PIECE_LIMIT as u64);
    let piece = &mut room[..len as usize];
    log.read_at(at, piece)?;
    summing.add(piece);
    Ok(())
}

/// Adds a log's text from where a sum ends up to there.
fn add_all<G: Growing>(
    log: &mut G,
    summing: &mut Summing,
    to: u64,
    room: &mut [u8],
) -> Result<(), Fault>
    requires inside { to ≤ G.shown log.old }
    requires within { summing.old.end ≤ to }
    requires room { length room.old ≡ 65536 }
    ensures sums { OnOk result (SumsFront (G.reads log.old) summing.old
        → SumsFront (G.reads log.new) summing.new) }
    ensures whole { OnOk result (summing.new.end ≡ to) }
    ensures reads { (more : List AnyRead) × (G.reads log.new ≡ G.reads log.old ++ more) }
    ensures shown { G.shown log.new ≡ G.shown log.old }
    ensures seals { G.seals log.new ≡ G.seals log.old }
    ensures pages { G.pages log.new ≡ G.pages log.old }
    ensures fails { IfErr result (λ f. f ≡ fault.Stream) }
{
    for _ in 0..u64::MAX {
        if summing.end() >= to {
            return Ok(());
        }
        add_piece(log, summing, to, room)?;
    }
    Err(Fault::Stream)
}

/// The sum of a log's text up to there.
///
/// Stream: the log failed. Memory: there was none for a piece.
pub(crate) fn sum<G: Growing>(alloc: Global, log: &mut G, to: u64) -> Result<Summing, Fault>
    requires inside { to ≤ G.shown log.old }
    ensures sums { IfOk result (λ s. (text : List ℕ) → AreOf text (G.reads log.new)
        → Sums s (take to text)) }
    ensures reads { (more : List AnyRead) × (G.reads log.new ≡ G.reads log.old ++ more) }
    ensures shown { G.shown log.new ≡ G.shown log.old }
    ensures seals { G.seals log.new ≡ G.seals log.old }
    ensures pages { G.pages log.new ≡ G.pages log.old }
    ensures fails { IfErr result IsOfReading }
{
    let mut room = Vec::new(alloc);
    room.resize(PIECE_LIMIT, 0)?;
    let mut summing = Summing::new();
    add_all(log, &mut summing, to, room.as_mut_slice())?;
    Ok(summing)
}
