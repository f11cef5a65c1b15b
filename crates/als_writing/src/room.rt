ghost use Rattle.std.specs.Prelude.{◌≡◌, ℕ, ◌+◌, ◌*◌, ◌≤◌, List, [], ◌∷◌, ◌++◌, take};
ghost use Rattle.als_record.specs.declared.record.Record.{Record as AnyRecord};
ghost use Rattle.als_record.specs.Spelling.{image_len};
ghost use Rattle.als_record.specs.LogText.{end_of};
ghost use Rattle.als_record.specs.Images.{image_now};
ghost use Rattle.als_record.specs.Validity.{IsValidLog};
ghost use Rattle.als_record.specs.Commits.{Write as AnyWrite};
ghost use Rattle.als_record.specs.Tail.{reserve_of};
ghost use Rattle.als_writing.specs.Writing.{Writes, record_for, updates, transaction, room_for};
ghost use Rattle.als_writing.specs.Writing.{MayWrite};

/// A transaction with at least one write never takes more room than `room_for` says, the reserve of
/// the log included, and it takes that much behind its last update. Its end gives all of the reserve
/// back. So a device with this room free is asked once, before the first record.
pub fn transaction_fits()
    ensures fronts { (pages : ℕ) → (log : List AnyRecord) → (t : ℕ) → (w : AnyWrite)
        → (rest : List AnyWrite) → (n : ℕ) → IsValidLog pages log
        → MayWrite pages log t (w ∷ rest)
        → end_of (log ++ take n (transaction log t (w ∷ rest)))
        + reserve_of (log ++ take n (transaction log t (w ∷ rest)))
        ≤ end_of log + reserve_of log + room_for log t (w ∷ rest) }
    ensures met { (pages : ℕ) → (log : List AnyRecord) → (t : ℕ) → (w : AnyWrite)
        → (rest : List AnyWrite) → IsValidLog pages log → MayWrite pages log t (w ∷ rest)
        → end_of (log ++ updates log t (w ∷ rest)) + reserve_of (log ++ updates log t (w ∷ rest))
        ≡ end_of log + reserve_of log + room_for log t (w ∷ rest) }
    ensures given_back { (pages : ℕ) → (log : List AnyRecord) → (t : ℕ) → (w : AnyWrite)
        → (rest : List AnyWrite) → IsValidLog pages log → MayWrite pages log t (w ∷ rest)
        → reserve_of (log ++ transaction log t (w ∷ rest)) ≡ reserve_of log }
{}

/// The room is 28 bytes for the end, and for each update 77, its after value's and twice its before
/// value's.
pub fn room_is_a_sum()
    ensures none { (log : List AnyRecord) → (t : ℕ) → room_for log t [] ≡ 28 }
    ensures more { (log : List AnyRecord) → (t : ℕ) → (w : AnyWrite) → (rest : List AnyWrite)
        → room_for log t (w ∷ rest)
        ≡ 77 + 2 * image_len (image_now log w.key) + image_len w.after
        + room_for (log ++ record_for log t (Writes w) ∷ []) t rest }
{}
