ghost use Rattle.std.specs.Prelude.{◌≡◌, ◌++◌, OnOk};
ghost use Rattle.als_record.specs.Spelling.{head, spelling};
ghost use Rattle.als_text.specs.RawRecord.{record_of};

use crate::raw_body::{RawBody, kind_of, spell, spelled_len};
use std::alloc::AllocError;

/// Appends the one spelling of a record, whether or not a log may hold it.
#[tactic(auto, unfolding(als_record::specs::Spelling::spelling, als_record::specs::Spelling::record_len))]
pub fn append_record(
    text: &mut Vec<u8>,
    lsn: u64,
    prev: u64,
    trans: u32,
    body: &RawBody,
) -> Result<(), AllocError>
    ensures { OnOk result (text.new.items
        ≡ text.old.items ++ spelling (record_of lsn prev trans body.now)) }
{
    let head = head_bytes(28 + spelled_len(body), kind_of(body), lsn, prev, trans);
    text.extend_from_slice(&head)?;
    spell(body, text)?;
    Ok(())
}

/// The common head of all records.
#[tactic(auto, unfolding(als_record::specs::Spelling::head))]
fn head_bytes(size: u32, kind: u8, lsn: u64, prev: u64, trans: u32) -> [u8; 28]
    ensures { result ≡ head size kind lsn prev trans }
{
    let s = size.to_be_bytes();
    let l = lsn.to_be_bytes();
    let p = prev.to_be_bytes();
    let t = trans.to_be_bytes();
    [
        s[0], s[1], s[2], s[3], kind, 0, 0, 0, l[0], l[1], l[2], l[3], l[4], l[5], l[6], l[7],
        p[0], p[1], p[2], p[3], p[4], p[5], p[6], p[7], t[0], t[1], t[2], t[3],
    ]
}
