ghost use Rattle.std.specs.Prelude.{◌≡◌, ◌≤◌, ◌<◌, ◌+◌, ◌++◌, ◌^◌, ℕ, List, [], Contains, length};
ghost use Rattle.std.specs.Prelude.{Option, Some};
ghost use Rattle.std.specs.List.{AllByRecursion, flat_map};
ghost use Rattle.als_epochs.specs.Histories.{GoesOn};
ghost use Rattle.als_wire.specs.Frames.{epochs_bytes, frame_bytes};
ghost use Rattle.als_ship.specs.Follows.{IsTrueFrame, IsFront};
ghost use Rattle.als_ship.specs.Vouching.{TellsVouched};
ghost use Rattle.als_sending.specs.Reads.{Read as AnyRead, AreOf};
ghost use Rattle.als_sending.specs.Sent.{reads_bytes, Reach, frames_of};
ghost use Rattle.als_sending.specs.Session.{Hears};

/// What a session sends, as frames: each of them is a true frame of the texts of all epochs, where the
/// own history is a front of the seals of all takeovers, and the pieces are of the text of its epoch.
/// So a standby that follows it holds fronts of these texts alone.
pub fn sent_frames_are_true()
    ensures true_frames { (texts : ℕ → List ℕ) (seals own : List ℕ) (pieces : List AnyRead)
        → GoesOn own seals → AreOf (texts (length own)) pieces
        → AllByRecursion (IsTrueFrame texts seals) (frames_of own pieces) }
    // They are spelled as what is sent.
    ensures spelled { (own : List ℕ) (pieces : List AnyRead)
        → flat_map frame_bytes (frames_of own pieces)
        ≡ epochs_bytes own ++ reads_bytes (length own) pieces }
{}

/// Pieces that leave no gap have each byte between the offset at which they begin and the one that
/// they reach.
pub fn sent_pieces_cover()
    ensures { (from to at : ℕ) (pieces : List AnyRead) → Reach from pieces to → from ≤ at → at < to
        → (r : AnyRead) × Contains pieces r × (r.at ≤ at) × (at < r.at + length r.bytes) }
{}

/// Over bytes that are known, and whatever front of what a follower told has come: each LSN that a
/// session acknowledged is at most what the follower's voucher stands for.
pub fn what_is_acknowledged_was_told()
    ensures { (floor pages end : ℕ) (own told came heard heard_now : List ℕ)
        (old : Option (List ℕ)) → floor < 2 ^ 64 → TellsVouched floor (Some []) (Some told)
        → IsFront came told → Hears pages end own heard heard_now (Some came) old
        → (more : List ℕ) × (heard_now ≡ heard ++ more)
        × AllByRecursion (λ lsn. lsn ≤ floor) more }
{}
