ghost use Rattle.std.specs.Prelude.{◌≡◌, ◌↔◌, ℕ, ◌==◌, ◌+◌, ◌*◌, List, [], ◌++◌, filter, length, sum_by};
ghost use Rattle.std.specs.Prelude.{take, drop, IsTrue, if◌then◌else◌};
ghost use Rattle.als_record.specs.declared.key.Key.{Key as AnyKey};
ghost use Rattle.als_record.specs.declared.record.Record.{Record as AnyRecord};
ghost use Rattle.als_record.specs.Transactions.{to_undo, is_loser, unended, in_doubt};
ghost use Rattle.als_record.specs.Images.{image_now, kept};
ghost use Rattle.als_record.specs.Validity.{is_valid};
ghost use Rattle.als_record.specs.Tail.{losing, ending, tail_of, tail_len, is_undone, undo_len};
ghost use Rattle.als_record.specs.Sweep.{compensations, AreCompensationsOf};
ghost use Rattle.als_record.specs.Orders.{Falling};

/// What a takeover appends to a valid log keeps it valid, ends every transaction but those in
/// doubt, and leaves at each key what a takeover keeps, which the surviving updates of the
/// transactions that are committed or in doubt wrote: these stay, losers are undone (ARIES undo).
pub fn tail_takes_over()
    ensures valid { (log : List AnyRecord) → IsTrue (is_valid log)
        → IsTrue (is_valid (log ++ tail_of log)) }
    ensures ended { (log : List AnyRecord) → IsTrue (is_valid log)
        → unended (log ++ tail_of log) ≡ in_doubt log }
    ensures images { (log : List AnyRecord) → IsTrue (is_valid log) → (k : AnyKey)
        → image_now (log ++ tail_of log) k ≡ kept log k }
{}

/// A takeover undoes in one falling sweep over all losers. The compensations of its tail are, in
/// order, those of the updates to undo (each at the update's key, with its before image, and with
/// its PrevLSN as UndoNxtLSN); these stand in falling LSN; and those of one transaction are all
/// that it has to undo if it is a loser, and none if it is not.
pub fn sweep_falls()
    ensures undone { (log : List AnyRecord)
        → AreCompensationsOf (losing log) (compensations (tail_of log)) }
    ensures falls { (log : List AnyRecord) → IsTrue (is_valid log) → Falling (losing log) }
    ensures parts { (log : List AnyRecord) → (t : ℕ)
        → filter (λ u. u.trans.0 == t) (losing log)
        ≡ (if is_loser log t then to_undo log t else []) }
{}

/// A takeover that was stopped goes on where it was: after any number of records of a tail, the
/// tail is the rest of them. So however often it is stopped, one log comes of it.
pub fn tail_goes_on()
    ensures { (log : List AnyRecord) → (n : ℕ)
        → tail_of (log ++ take n (tail_of log)) ≡ drop n (tail_of log) }
{}

/// Nothing of the tail is left to append exactly where it is empty.
pub fn undone_has_no_tail()
    ensures { (log : List AnyRecord) → IsTrue (is_undone log) ↔ (tail_of log ≡ []) }
{}

/// A tail takes 28 bytes for each unended transaction that is not in doubt, and for each surviving
/// update of a loser 42 and its before value's.
pub fn tail_is_a_sum()
    ensures { (log : List AnyRecord) → tail_len log
        ≡ 28 * length (ending log) + sum_by undo_len (losing log) }
{}
