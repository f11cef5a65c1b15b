ghost use Rattle.std.specs.Prelude.{◌≡◌, ◌≤◌, ℕ, List, Ok};
ghost use Rattle.als_epochs.specs.declared.step.Step.TheVariants.{Adopt};
ghost use Rattle.als_epochs.specs.Histories.{IsHistory, RisesFrom};
ghost use Rattle.als_epochs.specs.Judging.{judged, Judges};

/// A law: what a judgement means.
pub fn judgement_in_words()
    ensures { (own offered : List ℕ) (end : ℕ) → Judges own offered end (judged own offered end) }
{}

/// A law: where each own seal is an LSN of a record or an end of the log, so is each seal of a
/// history that is adopted.
pub fn adopted_seals_stay_lsns()
    ensures { (own offered : List ℕ) (end : ℕ) → IsHistory offered → RisesFrom 16 own → 16 ≤ end
        → judged own offered end ≡ Ok Adopt
        → RisesFrom 16 offered }
{}
