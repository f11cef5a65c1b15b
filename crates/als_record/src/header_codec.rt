ghost use Rattle.std.specs.Prelude.{◌≡◌, ℕ, ◌≤◌, ◌<◌, ◌++◌, List, length, take, Some, None, Ok};
ghost use Rattle.std.specs.Prelude.{IfOk, MatchOption, ◌==◌};
ghost use Rattle.als_record.specs.LogText.{header_bytes};
ghost use Rattle.als_record.specs.HeaderReading.{is_magic, read_header};
ghost use Rattle.als_record.specs.Reading.{word_at};

use crate::fault::Fault;
use crate::fields::word;
use crate::header::LogHeader;
use crate::limits::PAGE_LIMIT;
use byteorder::{BigEndian, ByteOrder};

/// Is it the text that each log begins with?
fn begins_log(front: &[u8]) -> bool
    ensures { result ≡ is_magic front.now }
{
    front == b"ALSLOG01".as_slice()
}

/// Are the last four of a header's bytes zero?
fn ends_in_zeros(bytes: &[u8]) -> bool
    requires { 16 ≤ length bytes.now }
    ensures { result ≡ (word_at 12 bytes.now == 0) }
{
    word(bytes, 12) == 0
}

/// The steps of reading a header.
#[tactic(auto, unfolding(crate::specs::HeaderReading::read_header))]
fn read(bytes: &[u8]) -> Result<Option<LogHeader>, Fault>
    ensures { result ≡ read_header bytes.now }
{
    if bytes.len() < 16 {
        return Ok(None);
    }
    let (front, _) = bytes.split_at(8);
    let pages = word(bytes, 8);
    let is_header = begins_log(front)
        && 1 <= pages
        && pages as usize <= PAGE_LIMIT
        && ends_in_zeros(bytes);
    if !is_header {
        return Err(Fault::BadHeader);
    }
    Ok(Some(LogHeader { pages }))
}

impl LogHeader {
    /// The header at the front of the bytes. `None`: there are fewer than 16.
    ///
    /// `BadHeader`: another text, a page count that is not 1 to 4,096, or a byte that must be zero
    /// and is not. It takes no memory.
    pub fn decode(bytes: &[u8]) -> Result<Option<LogHeader>, Fault>
        // What is found is spelled so.
        ensures found { IfOk result (λ o. MatchOption o (length bytes.now < 16)
            (λ h. (take 16 bytes.now ≡ header_bytes h.pages) × (1 ≤ h.pages) × (h.pages ≤ 4096))) }
        // What is spelled so is found.
        ensures only { (pages : ℕ) (rest : List ℕ) → 1 ≤ pages → pages ≤ 4096
            → bytes.now ≡ header_bytes pages ++ rest
            → result ≡ Ok (Some (record { pages = pages })) }
        // Which it is.
        ensures exact { result ≡ read_header bytes.now }
    {
        read(bytes)
    }

    /// The header's 16 bytes.
    #[tactic(auto, unfolding(crate::specs::LogText::header_bytes))]
    pub fn encode(&self) -> [u8; 16]
        ensures { result ≡ header_bytes self.now.pages }
    {
        let mut bytes = *b"ALSLOG01\0\0\0\0\0\0\0\0";
        BigEndian::write_u32(&mut bytes[8..], self.pages);
        bytes
    }
}
