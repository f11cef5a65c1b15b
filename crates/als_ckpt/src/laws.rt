ghost use Rattle.std.specs.Prelude.{◌≡◌, ℕ, List, ◌<◌, ◌^◌};
ghost use Rattle.als_ckpt.specs.declared.control_state.ControlState.{ControlState as AnyState};
ghost use Rattle.als_ckpt.specs.Control.{Spells, IsControlState};

/// A law: a block spells at most one state, of one page count.
pub fn one_state()
    ensures { (log_bytes m n : ℕ) (s t : AnyState) (content : List ℕ) → log_bytes < 2 ^ 64
        → m < 2 ^ 32
        → n < 2 ^ 32
        → IsControlState log_bytes s → IsControlState log_bytes t
        → Spells m s content → Spells n t content
        → (m ≡ n) × (s ≡ t) }
{}
