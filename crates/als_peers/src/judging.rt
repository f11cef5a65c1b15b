ghost use Rattle.std.specs.Prelude.{◌↔◌, All, IsTrue, IfErr, OnOk};
ghost use Rattle.als_peers.specs.Keeping.{KeepsFrom, IsKeptBy};

use als_compare::Rank;

/// Whether a node of this rank may be taken over beside peers that answered so. None: a peer did not
/// answer. An error is the place of the first peer that keeps it from that, from 0.
pub fn judge(own: Rank, answers: &[Option<Rank>]) -> Result<(), usize>
    // Each peer answered, and no rank that was answered is above the node's.
    ensures ok { OnOk result (All (λ answer. KeepsFrom own answer → ⊥) answers.now) }
    ensures err { IfErr result (IsKeptBy own answers.now) }
{
    for i in 0..answers.len() {
        if keeps_from(own, answers[i]) {
            return Err(i);
        }
    }
    Ok(())
}

/// Whether what a peer answered keeps a node of this rank from being taken over.
fn keeps_from(own: Rank, answer: Option<Rank>) -> bool
    ensures { IsTrue result ↔ KeepsFrom own answer }
{
    match answer {
        Some(rank) => rank.is_above(own),
        None => true,
    }
}
