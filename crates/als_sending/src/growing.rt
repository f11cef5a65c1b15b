ghost use Rattle.std.specs.Prelude.{◌≡◌, ◌≤◌, ◌+◌, ◌++◌, ◌∷◌, ℕ, List, [], length, OnOk, OnErr};
ghost use Rattle.std.specs.Prelude.{IfOk, IfErr};
ghost use Rattle.als_wire.specs.Reading.{IsHeader};
ghost use Rattle.als_ship.specs.declared.fault.Fault.TheVariants as fault;
ghost use Rattle.als_sending.specs.Reads.{Read as AnyRead};

use crate::grown::Grown;
use als_epochs::History;
use als_record::LogHeader;
use als_ship::Fault;

/// A log whose text only grows, of a node with a history.
pub trait Growing {
    /// What was read of it, in order.
    ghost reads: { Self → List AnyRead };

    /// The seals of all takeovers before that node.
    ghost seals: { Self → List ℕ };

    /// The page count of its header.
    ghost pages: { Self → ℕ };

    /// The end that it told last: below it, it may be read.
    ghost shown: { Self → ℕ };

    /// The text's header.
    fn header(&self) -> LogHeader
        ensures header { result.pages ≡ pages self.now }
        ensures range { IsHeader result };

    /// The node's history.
    fn history(&self) -> History
        ensures { result ≡ seals self.now };

    /// The offset up to which it may be read now. It never falls. Stream: the log failed.
    fn end(&mut self) -> Result<u64, Fault>
        ensures told { IfOk result (λ end. shown self.new ≡ end) }
        ensures rises { shown self.old ≤ shown self.new }
        ensures reads { reads self.new ≡ reads self.old }
        ensures seals { seals self.new ≡ seals self.old }
        ensures pages { pages self.new ≡ pages self.old }
        ensures fails { IfErr result (λ f. f ≡ fault.Stream) };

    /// Waits until its end is past an offset, for one beat at most. Stream: the log failed.
    fn wait_past(&mut self, at: u64) -> Result<Grown, Fault>
        ensures shown { shown self.new ≡ shown self.old }
        ensures reads { reads self.new ≡ reads self.old }
        ensures seals { seals self.new ≡ seals self.old }
        ensures pages { pages self.new ≡ pages self.old }
        ensures fails { IfErr result (λ f. f ≡ fault.Stream) };

    /// Whether a follower that has all of it is sent a byte that it has, as a sign that there is more to come. A
    /// session with one that has all of a log which does not beat ends after a beat in which nothing came.
    /// Each log beats, unless it says otherwise.
    fn beats(&self) -> bool {
        true
    }

    /// Fills the buffer with the bytes from an offset on. Stream: the log failed.
    fn read_at(&mut self, at: u64, buf: &mut [u8]) -> Result<(), Fault>
        requires { at + length buf.old ≤ shown self.old }
        ensures read { OnOk result (reads self.new
            ≡ reads self.old ++ record { at = at; bytes = buf.new } ∷ []) }
        ensures failed { OnErr result (reads self.new ≡ reads self.old) }
        ensures shown { shown self.new ≡ shown self.old }
        ensures seals { seals self.new ≡ seals self.old }
        ensures pages { pages self.new ≡ pages self.old }
        ensures fails { IfErr result (λ f. f ≡ fault.Stream) };
}
