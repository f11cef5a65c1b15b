ghost use Rattle.std.specs.Prelude.{◌≡◌, IfSome, IfNone, Some};
ghost use Rattle.als_compare.specs.declared.verdict.Verdict.{Verdict as AnyVerdict};
ghost use Rattle.als_compare.specs.Frames.{byte_of};

/// What a source answers.
#[derive(Clone, Copy, Debug, PartialEq, Eq)]
pub enum Verdict {
    /// Its text is the same up to the follower's end.
    Same,
    /// Its text is another one.
    Other,
    /// Its log ends below the follower's.
    Shorter,
    /// The two histories part. A session says how.
    Parted,
}

impl Verdict {
    /// The byte that says so.
    pub(crate) fn byte(self) -> u8
        ensures { result ≡ byte_of self }
    {
        match self {
            Verdict::Same => 0,
            Verdict::Other => 1,
            Verdict::Shorter => 2,
            Verdict::Parted => 3,
        }
    }

    /// What the byte says. None: it says nothing.
    pub(crate) fn of_byte(byte: u8) -> Option<Verdict>
        ensures found { IfSome result (λ verdict. byte ≡ byte_of verdict) }
        ensures none { IfNone result ((verdict : AnyVerdict) → byte ≡ byte_of verdict → ⊥) }
    {
        match byte {
            0 => Some(Verdict::Same),
            1 => Some(Verdict::Other),
            2 => Some(Verdict::Shorter),
            3 => Some(Verdict::Parted),
            _ => None,
        }
    }
}
