// What of the log device a node is.
ghost use Rattle.std.specs.Prelude.{◌≡◌, ◌*◌, ◌<◌, ℕ};
ghost use Rattle.als_disk.specs.Slot.{Slot};
ghost use Rattle.als_reopen.specs.Node.{Node as AnyNode, IsNode};

/// A law: what a log device holds in the blocks from the mark on is nothing to a node.
pub fn a_node_is_below_its_mark()
    ensures { (pages blocks : ℕ) (log other control images : ℕ → Slot) (n : AnyNode)
        → ((b : ℕ) → 512 * b < n.said.state.mark.0 → other b ≡ log b)
        → IsNode pages blocks log control images n
        → IsNode pages blocks other control images n }
{}
