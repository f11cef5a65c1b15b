ghost use Rattle.std.specs.Prelude.{◌≡◌, ◌≤◌, ◌<◌, ◌-◌, ◌^◌, ℕ, List, [], length, Option, Some};
ghost use Rattle.als_record.specs.declared.header.LogHeader.{LogHeader as AnyHeader};
ghost use Rattle.als_record.specs.declared.lsn.Lsn.{Lsn as AnyLsn};
ghost use Rattle.als_engine.specs.Machine.{Machine};
ghost use Rattle.als_ship.specs.Wire.{ArePieces, bytes_at, joined, Ships, EndsServing};
ghost use Rattle.als_ship.specs.Epochs.{AreEpochs};
ghost use Rattle.als_ship.specs.Follows.{HoldsFront, IsFront, Happening, AreTrue, Schedule};
ghost use Rattle.als_ship.specs.Vouching.{TellsVouched, IsVouched};

/// There is one log text an epoch, and each has the text of the one before it below their seal. Over
/// every schedule of true frames of all epochs, any of them any number of times and in any order,
/// with forces, redo, resyncs and crashes between, a standby's history stays a front of the seals,
/// and its log a front of the text of its epoch.
#[tactic(auto, using(crate::proofs::Schedules::schedule_front))]
pub fn held_text_stays_a_front()
    ensures { (texts : ℕ → List ℕ) (seals : List ℕ) (schedule : List Happening) (old new : Machine)
        → AreEpochs texts seals → AreTrue texts seals schedule → Schedule old schedule new
        → HoldsFront texts seals old → HoldsFront texts seals new }
{}

/// The pieces that a session sends, joined, are the source's bytes from where the follower goes on
/// to the end.
#[tactic(auto, using(crate::proofs::Pieces::joined_pieces))]
pub fn sent_bytes_are_the_source()
    ensures { (text : List ℕ) (from : ℕ) (pieces : List (List ℕ)) → from ≤ length text
        → ArePieces text from pieces (length text)
        → joined pieces ≡ bytes_at text from (length text - from) }
{}

/// Over bytes that are known, and whatever front of what a follower told has come: the answer that a
/// shipper keeps is at most what the follower's voucher stands for.
pub fn what_is_heard_was_told()
    ensures whole { (floor : ℕ) (told : List ℕ) (came : List ℕ) (text : List ℕ) (own : List ℕ)
        (header : AnyHeader) (behind : Option (List ℕ)) (old : Option (List ℕ))
        (new : Option (List ℕ)) (n : ℕ) (kept : Option AnyLsn) → floor < 2 ^ 64
        → TellsVouched floor (Some []) (Some told) → IsFront came told
        → Ships text own header (Some came) behind old new n kept → IsVouched floor kept }
    ensures early { (floor : ℕ) (told : List ℕ) (came : List ℕ) (text : List ℕ) (own : List ℕ)
        (old : Option (List ℕ)) (new : Option (List ℕ)) (kept : Option AnyLsn) → floor < 2 ^ 64
        → TellsVouched floor (Some []) (Some told) → IsFront came told
        → EndsServing text own (Some came) old new kept → IsVouched floor kept }
{}
