ghost use Rattle.std.specs.Prelude.{◌≡◌, ℕ, List, []};
ghost use Rattle.als_receiver.specs.Reception.{Reception, fresh, IsRefusal};
ghost use Rattle.als_receiver.specs.History.{Call, Runs, bytes_after, KeepsAll, IsEmptied};
ghost use Rattle.als_receiver.specs.History.{Accounts, EndAlike, Stays};
ghost use Rattle.als_receiver.specs.declared.refusal.Refusal.{Refusal};

/// A law of all histories of a receiver, whatever is pushed, looked at, taken, asked and dropped in
/// whatever order: `peek` is a look, `advance` takes what a look has shown, and `next` copies and
/// takes it. It does nothing.
pub fn each_cutting_hands_out_the_same()
    // The records handed out, spelled, and then the bytes kept are all bytes pushed but those
    // dropped.
    ensures accounts { (wanted pages : ℕ) (calls : List Call) (s : Reception)
        → Runs (fresh wanted pages) calls s
        → Accounts wanted pages calls s }
    // The same bytes in other pieces give the same records, and the same refusal.
    ensures alike { (wanted pages : ℕ) (first second : List Call) (s t : Reception)
        → Runs (fresh wanted pages) first s
        → Runs (fresh wanted pages) second t → KeepsAll first → KeepsAll second
        → bytes_after [] first ≡ bytes_after [] second → IsEmptied s → IsEmptied t
        → EndAlike first second s t }
    // A refusal that a look gives is given for good, and no record is handed out behind it,
    // whatever is pushed.
    ensures stays { (s : Reception) (e : Refusal) (calls : List Call) (t : Reception)
        → IsRefusal s e → Runs s calls t
        → KeepsAll calls → Stays e calls t }
{}
