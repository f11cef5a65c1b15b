ghost use Rattle.std.specs.Prelude.{◌≡◌, ◌≤◌, ◌⊎◌, ℕ, List, [], length, take, Ok, Contains};
ghost use Rattle.sha2.specs.Sha256.{sha256};
ghost use Rattle.als_epochs.specs.declared.step.Step.{Step as AnyStep};
ghost use Rattle.als_epochs.specs.Histories.{IsHistory};
ghost use Rattle.als_epochs.specs.Judging.{Judges};
ghost use Rattle.als_compare.specs.declared.rank.Rank.{Rank as AnyRank};
ghost use Rattle.als_compare.specs.Ranks.{rank_of, IsAbove};
ghost use Rattle.als_compare.specs.declared.summary.Summary.{Summary as AnySummary};
ghost use Rattle.als_compare.specs.declared.verdict.Verdict.{Verdict as AnyVerdict};
ghost use Rattle.als_compare.specs.declared.verdict.Verdict.TheVariants as verdict;
ghost use Rattle.als_compare.specs.Summaries.{summary_of};
ghost use Rattle.als_compare.specs.Verdicts.{IsVerdict};

/// A follower that a session would let go on, and that holds a front of the source's text, is answered that
/// it is the same: there is no false alarm.
pub fn front_is_the_same()
    ensures { (text own seals : List ℕ) (n end : ℕ) (step : AnyStep) (v : AnyVerdict)
        → Judges own seals n (Ok step) → n ≤ length text → n ≤ end
        → IsVerdict text end seals (summary_of (length own) (take n text)) v → v ≡ verdict.Same }
{}

/// Whoever is answered that it holds another log does: the source's text goes on as far, and is another one
/// there.
pub fn other_text_differs()
    ensures other { (text seals held : List ℕ) (epoch end : ℕ)
        → IsVerdict text end seals (summary_of epoch held) verdict.Other
        → (length held ≤ end) × (take (length held) text ≡ held → ⊥) }
    // Whoever is answered that it holds the same one has a text of the same digest.
    ensures same { (text seals held : List ℕ) (epoch end : ℕ)
        → IsVerdict text end seals (summary_of epoch held) verdict.Same
        → sha256 (take (length held) text) ≡ sha256 held }
{}

/// Whoever is answered about the first bytes of its log that it is another one holds a log that begins otherwise.
pub fn beginning_decides()
    ensures other { (text seals held : List ℕ) (n end : ℕ) → n ≤ length held
        → IsVerdict text end seals (summary_of 0 (take n held)) verdict.Other
        → take n text ≡ take n held → ⊥ }
    // Where it begins alike, up to no seal of the source's, it is answered that it is the same: there is no false alarm.
    ensures alike { (text seals held : List ℕ) (n end : ℕ) (step : AnyStep) (v : AnyVerdict)
        → Judges [] seals n (Ok step) → n ≤ length text → n ≤ end → take n text ≡ take n held
        → IsVerdict text end seals (summary_of 0 (take n held)) v → v ≡ verdict.Same }
{}

/// There is one answer to a question, and no more.
pub fn one_answer()
    ensures { (text seals : List ℕ) (end : ℕ) (question : AnySummary) (v w : AnyVerdict)
        → IsVerdict text end seals question v → IsVerdict text end seals question w → v ≡ w }
{}

/// Of two nodes one is of a greater rank, or both are of one rank, and no two are each above the other; the
/// greatest of several ranks is above each lower one.
pub fn ranks_are_in_order()
    ensures total { (a b : AnyRank) → IsAbove a b ⊎ ((a ≡ b) ⊎ IsAbove b a) }
    ensures one_way { (a b : AnyRank) → IsAbove a b → IsAbove b a → ⊥ }
    ensures transitive { (a b c : AnyRank) → IsAbove a b → IsAbove b c → IsAbove a c }
    // The seal of a rank is the greatest of the history's seals at or below its end, and 0 where none is.
    ensures greatest { (seals : List ℕ) (end seal : ℕ) → IsHistory seals → Contains seals seal
        → seal ≤ end → seal ≤ (rank_of seals end).seal }
    ensures own { (seals : List ℕ) (end : ℕ) → ((rank_of seals end).seal ≡ 0)
        ⊎ (Contains seals (rank_of seals end).seal × ((rank_of seals end).seal ≤ end)) }
{}
