ghost use Rattle.std.specs.Prelude.{◌≡◌, ◌≤◌, OnOk, IfErr};
ghost use Rattle.std.specs.Io.KnownBytes.{Appends};
ghost use Rattle.als_compare.specs.Ranks.{rank_of, rank_bytes};
ghost use Rattle.als_comparing.specs.Answers.{IsOfAnswer};

use als_compare::{Rank, write_rank};
use als_sending::Growing;
use als_ship::Fault;
use std::io::Write;

/// Writes the rank of a log's node: that of its own history, where all below the end that the log tells is
/// acknowledged.
///
/// Cut, Stream: the writer failed. Stream: the log did.
pub(crate) fn tell_rank<G: Growing, W: Write>(log: &mut G, writer: &mut W) -> Result<(), Fault>
    ensures told { OnOk result (Appends (W.contents writer.old) (W.contents writer.new)
        (rank_bytes (rank_of (G.seals log.old) (G.shown log.new)))) }
    ensures reads { G.reads log.new ≡ G.reads log.old }
    ensures rises { G.shown log.old ≤ G.shown log.new }
    ensures seals { G.seals log.new ≡ G.seals log.old }
    ensures pages { G.pages log.new ≡ G.pages log.old }
    ensures fails { IfErr result IsOfAnswer }
{
    let own = log.history();
    let end = log.end()?;
    write_rank(writer, Rank::new(&own, end))?;
    Ok(())
}
