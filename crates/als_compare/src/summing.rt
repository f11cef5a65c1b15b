ghost use Rattle.std.specs.Prelude.{◌≡◌, ◌<◌, ◌+◌, ◌^◌, ◌++◌, [], ℕ, List, length};
ghost use Rattle.als_compare.specs.Summaries.{Sums, summary_of};

use crate::summary::Summary;
use sha2::{Digest, Sha256};

/// The digest of a text that grows: what was added is not kept.
pub struct Summing {
    hasher: Sha256,
    end: u64,
}

impl Drop for Summing {
    fn drop(self) {
        let Summing { hasher, end: _ } = self;
        drop(hasher);
    }
}

impl Summing {
    /// That of no text.
    #[tactic(auto, unfolding(crate::specs::Summaries::Sums))]
    pub fn new() -> Summing
        ensures sums { Sums result [] }
        ensures end { result.end ≡ 0 }
    {
        Summing {
            hasher: Sha256::new(),
            end: 0,
        }
    }

    /// The text goes on with these bytes.
    #[tactic(auto, unfolding(crate::specs::Summaries::Sums))]
    pub fn add(&mut self, bytes: &[u8])
        requires room { self.old.end + length bytes.now < 2 ^ 64 }
        ensures sums { (text : List ℕ) → Sums self.old text → Sums self.new (text ++ bytes.now) }
        ensures end { self.new.end ≡ self.old.end + length bytes.now }
    {
        self.hasher.update(bytes);
        self.end += bytes.len() as u64;
    }

    /// How long the text is.
    pub fn end(&self) -> u64
        ensures { result ≡ self.now.end }
    {
        self.end
    }

    /// The summary of the text, held in this epoch.
    #[tactic(auto, unfolding(crate::specs::Summaries::Sums))]
    pub fn summary(&self, epoch: u32) -> Summary
        ensures { (text : List ℕ) → Sums self.now text → result ≡ summary_of epoch text }
    {
        match self.hasher.clone() {
            Ok(hasher) => Summary {
                epoch,
                end: self.end,
                digest: hasher.finalize(),
            },
            Err(_) => unreachable!(),
        }
    }
}
