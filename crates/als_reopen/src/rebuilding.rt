// What stopped devices are once their checkpoint is forgotten, so that their pages are made anew.
ghost use Rattle.std.specs.Prelude.{◌≡◌, ◌⊎◌, ◌*◌, ◌<◌, ℕ};
ghost use Rattle.als_disk.specs.Slot.{Slot, only, KeepsCandidate};
ghost use Rattle.als_disk.specs.Store.{zeros};
ghost use Rattle.als_ckpt.specs.Holding.{HoldsControl};
ghost use Rattle.als_ckpt.specs.Again.{unpublished, LeavesEither};
ghost use Rattle.als_reopen.specs.Node.{Node as AnyNode, HoldsLog, IsNode};
ghost use Rattle.als_reopen.specs.Taken.{IsTakenFrom};
ghost use Rattle.als_reopen.specs.Again.{unchecked};

/// A law: a log whose checkpoint is forgotten is a node over pages of zeros, whatever its pages
/// held before: the same log, phase, mark, seal and history.
pub fn a_log_makes_its_pages_anew()
    ensures { (pages blocks : ℕ) (log old new images : ℕ → Slot) (n : AnyNode)
        → HoldsLog pages blocks log old n
        → IsTakenFrom n.log n.said.state
        → HoldsControl pages (512 * blocks) new (unpublished n.said)
        → ((page : ℕ) → page < pages → images page ≡ only zeros)
        → IsNode pages blocks log new images (unchecked n) }
{}

/// A law: so it is over the pages that were the node's.
pub fn a_node_needs_no_checkpoint()
    ensures { (pages blocks : ℕ) (log old new images : ℕ → Slot) (n : AnyNode)
        → IsNode pages blocks log old images n
        → HoldsControl pages (512 * blocks) new (unpublished n.said)
        → IsNode pages blocks log new images (unchecked n) }
{}

/// A law: so it is with each candidate of a crash while the checkpoint is forgotten.
pub fn a_node_forgets_its_checkpoint_or_not()
    ensures { (pages blocks : ℕ) (log old tried images left : ℕ → Slot) (n : AnyNode)
        → IsNode pages blocks log old images n
        → LeavesEither pages (512 * blocks) tried n.said (unpublished n.said)
        → ((k : ℕ) → KeepsCandidate (tried k) (left k))
        → IsNode pages blocks log left images n
        ⊎ IsNode pages blocks log left images (unchecked n) }
{}

/// A law: whatever the pages hold, each candidate of a crash is a log from which they can be made
/// anew.
pub fn a_log_forgets_its_checkpoint_or_not()
    ensures { (pages blocks : ℕ) (log old tried left : ℕ → Slot) (n : AnyNode)
        → HoldsLog pages blocks log old n
        → IsTakenFrom n.log n.said.state
        → LeavesEither pages (512 * blocks) tried n.said (unpublished n.said)
        → ((k : ℕ) → KeepsCandidate (tried k) (left k))
        → (HoldsLog pages blocks log left n × IsTakenFrom n.log n.said.state)
        ⊎ (HoldsLog pages blocks log left (unchecked n)
        × IsTakenFrom (unchecked n).log (unchecked n).said.state) }
{}
