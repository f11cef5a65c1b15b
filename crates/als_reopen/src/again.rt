// What stopped devices are once another control state was written to them.
ghost use Rattle.std.specs.Prelude.{◌≡◌, ◌⊎◌, ◌*◌, ℕ};
ghost use Rattle.als_disk.specs.Slot.{Slot, KeepsCandidate};
ghost use Rattle.als_ckpt.specs.declared.phase.Phase.TheVariants.{Primary};
ghost use Rattle.als_ckpt.specs.declared.unreached.Unreached.{Unreached as AnyUnreached};
ghost use Rattle.als_ckpt.specs.Holding.{HoldsControl};
ghost use Rattle.als_ckpt.specs.Again.{forgetting, following_again, saying, LeavesEither};
ghost use Rattle.als_reopen.specs.Node.{Node as AnyNode, IsNode};
ghost use Rattle.als_reopen.specs.Again.{restated};

/// A law: a node that forgets the seals which its log has not reached is a node, with the same log.
pub fn a_node_forgets_what_it_never_reached()
    ensures { (pages blocks : ℕ) (log old new images : ℕ → Slot) (n : AnyNode)
        (which : AnyUnreached)
        → IsNode pages blocks log old images n
        → HoldsControl pages (512 * blocks) new (saying n.said (forgetting which n.said.state))
        → IsNode pages blocks log new images (restated n (forgetting which n.said.state)) }
{}

/// A law: so it is with each candidate of a crash in between.
pub fn a_node_forgets_or_not()
    ensures { (pages blocks : ℕ) (log old tried images left : ℕ → Slot) (n : AnyNode)
        (which : AnyUnreached)
        → IsNode pages blocks log old images n
        → LeavesEither pages (512 * blocks) tried n.said
        (saying n.said (forgetting which n.said.state))
        → ((k : ℕ) → KeepsCandidate (tried k) (left k))
        → IsNode pages blocks log left images n
        ⊎ IsNode pages blocks log left images (restated n (forgetting which n.said.state)) }
{}

/// A law: a primary that follows a source again is a node, with the same log, checkpoint and
/// history.
pub fn a_primary_follows_again()
    ensures { (pages blocks : ℕ) (log old new images : ℕ → Slot) (n : AnyNode)
        → n.said.state.phase ≡ Primary
        → IsNode pages blocks log old images n
        → HoldsControl pages (512 * blocks) new (saying n.said (following_again n.said.state))
        → IsNode pages blocks log new images (restated n (following_again n.said.state)) }
{}

/// A law: so it is with each candidate of a crash in between.
pub fn a_primary_follows_again_or_not()
    ensures { (pages blocks : ℕ) (log old tried images left : ℕ → Slot) (n : AnyNode)
        → n.said.state.phase ≡ Primary
        → IsNode pages blocks log old images n
        → LeavesEither pages (512 * blocks) tried n.said
        (saying n.said (following_again n.said.state))
        → ((k : ℕ) → KeepsCandidate (tried k) (left k))
        → IsNode pages blocks log left images n
        ⊎ IsNode pages blocks log left images (restated n (following_again n.said.state)) }
{}
