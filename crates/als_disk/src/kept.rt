ghost use Rattle.std.specs.Prelude.{◌≡◌};
ghost use Rattle.als_disk.specs.Store.{zeros};

use crate::content::Content;
use std::marker::Model;

/// The content of a block at the last sync. Zeros take no memory.
#[derive(Drop)]
pub(crate) struct Kept {
    content: Option<Content>,
}

impl Model for Kept {
    ghost use Rattle.std.specs.Prelude.{ℕ, List, unwrap_or};
    ghost use Rattle.als_disk.specs.Store.{zeros};

    ghost Value = { List ℕ };

    ghost view = { λ kept. unwrap_or kept.content zeros };
}

impl Kept {
    /// Zeros.
    pub(crate) fn zeros() -> Kept
        ensures { result ≡ zeros }
    {
        Kept { content: None }
    }

    /// A content that was written.
    pub(crate) fn of(content: Content) -> Kept
        ensures { result ≡ content }
    {
        Kept {
            content: Some(content),
        }
    }

    /// Its bytes.
    #[tactic(auto, unfolding(crate::specs::Store::zeros))]
    pub(crate) fn block(&self) -> [u8; 512]
        ensures { result ≡ self.now }
    {
        match &self.content {
            Some(content) => content.block(),
            None => [0; 512],
        }
    }
}
