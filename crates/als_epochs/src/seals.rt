ghost use Rattle.std.specs.Prelude.{◌≡◌, ◌≤◌, ◌*◌, ◌++◌, ℕ, List, length, take, drop, IfSome, Some};
ghost use Rattle.als_epochs.specs.Histories.{IsHistory, seals_bytes};

use crate::history::History;
use crate::numbers::long_in;
use als_record::Lsn;
use byteorder::{BigEndian, ByteOrder};

impl History {
    /// Writes the seals at the front of a buffer, eight bytes each. What stands behind them stays.
    pub fn encode(&self, out: &mut [u8])
        requires { 8 * length self.now ≤ length out.old }
        ensures { out.new ≡ seals_bytes self.now ++ drop (8 * length self.now) out.old }
    {
        let (front, _) = out.split_at_mut(8 * self.seals().len());
        BigEndian::write_u64_into(self.seals(), front);
    }

    /// The history of so many seals at the front of the bytes. `None`: there are more than 32, or
    /// one is below the one before it.
    pub fn decode(epoch: u32, bytes: &[u8]) -> Option<History>
        requires { 8 * epoch ≤ length bytes.now }
        // What is found is spelled so.
        ensures found { IfSome result (λ h. IsHistory h × (length h ≡ epoch)
            × (take (8 * epoch) bytes.now ≡ seals_bytes h)) }
        // What is spelled so is found.
        ensures only { (h rest : List ℕ) → IsHistory h → length h ≡ epoch
            → bytes.now ≡ seals_bytes h ++ rest
            → result ≡ Some h }
    {
        let mut history = History::empty();
        let mut rest = bytes;
        for _ in 0..epoch {
            let (first, after) = rest.split_at(8);
            let seal = Lsn(long_in(first));
            if !history.takes(seal) {
                return None;
            }
            history.push(seal);
            rest = after;
        }
        Some(history)
    }
}
