ghost use Rattle.std.specs.Prelude.{◌≡◌, ◌≤◌, ◌+◌, ◌++◌, ℕ, List, [], length, take, OnOk, IsOk, IfOk};
ghost use Rattle.std.specs.Prelude.{IfErr};
ghost use Rattle.als_record.specs.LogText.{header_bytes};
ghost use Rattle.als_wire.specs.Reading.{IsHeader};
ghost use Rattle.als_ship.specs.declared.fault.Fault.TheVariants as fault;
ghost use Rattle.als_ship.specs.Wire.{bytes_at};

use crate::fault::Fault;
use als_epochs::History;
use als_record::LogHeader;
use std::marker::Model;
use std::vec::Vec;

/// Where a shipper reads a log text, and the history of the node whose log it is.
pub trait Source {
    /// The whole text, header and all.
    ghost text: { Self → List ℕ };

    /// The seals of all takeovers before that node.
    ghost seals: { Self → List ℕ };

    /// The text's header.
    fn header(&self) -> LogHeader
        ensures header { take 16 (text self.now) ≡ header_bytes result.pages }
        ensures range { IsHeader result };

    /// The node's history.
    fn history(&self) -> History
        ensures { result ≡ seals self.now };

    /// The offset after the text's last byte.
    fn end(&self) -> u64
        ensures { result ≡ length (text self.now) };

    /// Fills the buffer with the bytes from an offset on. Stream: the source failed.
    fn read_at(&mut self, offset: u64, buf: &mut [u8]) -> Result<(), Fault>
        requires { offset + length buf.old ≤ length (text self.old) }
        ensures bytes { OnOk result (buf.new ≡ bytes_at (text self.old) offset (length buf.old)) }
        ensures same { text self.new ≡ text self.old }
        ensures kept { seals self.new ≡ seals self.old }
        ensures fails { IfErr result (λ f. f ≡ fault.Stream) };
}

/// A log text in memory, of a node with this history.
pub struct LogBytes {
    header: LogHeader,
    history: History,
    bytes: Vec<u8>,
}

// Written out: a derived drop is proved wherever a log is dropped, this one only here.
impl Drop for LogBytes {
    fn drop(self) {
        let LogBytes {
            header: _,
            history: _,
            bytes,
        } = self;
        drop(bytes);
    }
}

impl Model for LogBytes {
    ghost use Rattle.std.specs.Prelude.{◌≡◌, ℕ, List, take};
    ghost use Rattle.als_record.specs.LogText.{header_bytes};
    ghost use Rattle.als_wire.specs.Reading.{IsHeader};
    ghost use Rattle.als_ship.specs.Sourced.{Sourced};

    ghost Value = { Sourced };

    ghost view = { λ s. record { text = s.bytes.items; seals = s.history } };

    ghost invariant = { λ s. (take 16 s.bytes.items ≡ header_bytes s.header.pages)
        × IsHeader s.header };
}

impl LogBytes {
    /// A source of these bytes, which are not looked at past their header, of a node before which
    /// there was no takeover. BadHeader: they begin with none.
    pub fn new(bytes: Vec<u8>) -> Result<LogBytes, Fault>
        ensures text { IfOk result (λ s. s.text ≡ bytes.items) }
        ensures seals { IfOk result (λ s. s.seals ≡ []) }
        ensures fails { IfErr result (λ f. f ≡ fault.BadHeader) }
        // A text with a header is taken.
        ensures taken { (pages : ℕ) (rest : List ℕ) → 1 ≤ pages → pages ≤ 4096
            → bytes.items ≡ header_bytes pages ++ rest → IsOk result }
    {
        LogBytes::with_history(bytes, History::empty())
    }

    /// The same of a node with this history.
    pub fn with_history(bytes: Vec<u8>, history: History) -> Result<LogBytes, Fault>
        ensures text { IfOk result (λ s. s.text ≡ bytes.items) }
        ensures seals { IfOk result (λ s. s.seals ≡ history) }
        ensures fails { IfErr result (λ f. f ≡ fault.BadHeader) }
        // A text with a header is taken.
        ensures taken { (pages : ℕ) (rest : List ℕ) → 1 ≤ pages → pages ≤ 4096
            → bytes.items ≡ header_bytes pages ++ rest → IsOk result }
    {
        match LogHeader::decode(bytes.as_slice()) {
            Ok(Some(header)) => Ok(LogBytes {
                header,
                history,
                bytes,
            }),
            Ok(None) => Err(Fault::BadHeader),
            Err(_) => Err(Fault::BadHeader),
        }
    }
}

impl Source for LogBytes {
    ghost text = { λ s. s.text };

    ghost seals = { λ s. s.seals };

    fn header(&self) -> LogHeader {
        self.header
    }

    fn history(&self) -> History {
        self.history
    }

    fn end(&self) -> u64 {
        self.bytes.len() as u64
    }

    fn read_at(&mut self, offset: u64, buf: &mut [u8]) -> Result<(), Fault> {
        let from = offset as usize;
        buf.copy_from_slice(&self.bytes[from..from + buf.len()]);
        Ok(())
    }
}
