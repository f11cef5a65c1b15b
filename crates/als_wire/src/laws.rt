ghost use Rattle.std.specs.Prelude.{◌≡◌, ◌++◌, List, ℕ};
ghost use Rattle.als_wire.specs.declared.frame.Frame.{Frame as AnyFrame};
ghost use Rattle.als_wire.specs.declared.tag.Tag.{Tag as AnyTag};
ghost use Rattle.als_wire.specs.Frames.{frame_bytes, tag_of, IsFrame};
ghost use Rattle.als_wire.specs.Reading.{IsNoFrame};

/// No frame's spelling begins another's: what is written is what is read.
#[tactic(auto, using(crate::proofs::OneFrame::frame_again))]
pub fn one_frame()
    ensures { (f g : AnyFrame) (xs ys : List ℕ) → IsFrame f → IsFrame g
        → frame_bytes f ++ xs ≡ frame_bytes g ++ ys → (f ≡ g) × (xs ≡ ys) }
{}

/// Bytes for which BadFrame is answered begin no frame with the tag that was wanted.
pub fn no_refusal_of_a_frame()
    ensures { (f : AnyFrame) (bytes xs ys : List ℕ) → IsFrame f → IsNoFrame (tag_of f) bytes
        → frame_bytes f ++ xs ≡ bytes ++ ys → ⊥ }
{}
