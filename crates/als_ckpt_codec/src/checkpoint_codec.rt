ghost use Rattle.std.specs.Prelude.{◌≡◌, ◌≤◌, ◌+◌, ◌++◌, ℕ, List, length, drop, take, replicate};
ghost use Rattle.std.specs.Prelude.{◌⊎◌, IfOk, IfErr, true, Ok as Found};
ghost use Rattle.byteorder.specs.Endian.{big_number};
ghost use Rattle.als_record.specs.Spelling.{head, spelling, record_len, IsRecord};
ghost use Rattle.als_record.specs.declared.record.Record.{Record as AnyRecord};
ghost use Rattle.als_record.specs.declared.rows.LoggedTransaction.{LoggedTransaction};
ghost use Rattle.als_record.specs.declared.rows.LoggedPage.{LoggedPage};
ghost use Rattle.als_ckpt_codec.specs.Checkpoint.{numbers_bytes, checkpoint_bytes, AreNumbers};
ghost use Rattle.als_ckpt_codec.specs.Checkpoint.{IsCheckpoint, BeginsWith, BeginsWithTables};
ghost use Rattle.als_ckpt_codec.specs.Checkpoint.{Finds, tables_of};
ghost use Rattle.als_ckpt_codec.specs.declared.numbers.Numbers.{Numbers as AnyNumbers};
ghost use Rattle.als_ckpt_codec.specs.declared.checkpoint.Checkpoint.{Checkpoint as AnyCheckpoint};

use crate::checkpoint::Checkpoint;
use crate::checkpoint_rows::{are_pages, are_transactions};
use crate::fault::Fault;
use crate::numbers::Numbers;
use als_record::{
    Body, Lsn, PageRows, Record, TransId, TransactionRows, decode, encode, encoded_len,
};
use byteorder::{BigEndian, ByteOrder};
use std::alloc::Global;

/// How many bytes stand in front of the two counts of a checkpoint's rows.
const FRONT: usize = 36;

/// The bytes of a checkpoint's numbers.
#[tactic(auto, unfolding(crate::specs::Checkpoint::numbers_bytes))]
fn numbers_bytes(numbers: &Numbers) -> [u8; FRONT]
    ensures { result ≡ numbers_bytes numbers.now }
{
    let mut bytes = [0; FRONT];
    BigEndian::write_u64(&mut bytes, numbers.position.0);
    BigEndian::write_u32(&mut bytes[8..], numbers.greatest.0);
    BigEndian::write_u64(&mut bytes[12..], numbers.open_checkpoint.0);
    BigEndian::write_u64(&mut bytes[20..], numbers.commits);
    BigEndian::write_u64(&mut bytes[28..], numbers.last_commit.0);
    bytes
}

/// The head of an end_chkpt of so many bytes at 0, behind 8 zeros: as long as a checkpoint's
/// numbers.
#[tactic(auto, unfolding(als_record::specs::Spelling::head))]
fn head_bytes(size: u32) -> [u8; FRONT]
    ensures { result ≡ replicate 8 0 ++ head size 7 0 0 0 }
{
    let mut bytes = [0; FRONT];
    BigEndian::write_u32(&mut bytes[8..], size);
    bytes[12] = 7;
    bytes
}

/// Puts other bytes in front.
fn replace_front(bytes: &mut [u8], front: &[u8; FRONT])
    requires { 36 ≤ length bytes.old }
    ensures { bytes.new ≡ front.now ++ drop 36 bytes.old }
{
    let (place, _) = bytes.split_at_mut(FRONT);
    place.copy_from_slice(front);
}

/// The bytes of a checkpoint. The tables are spelled by an end_chkpt, whose head then makes room
/// for the numbers.
pub fn encode_checkpoint(alloc: Global, checkpoint: Checkpoint) -> Result<Vec<u8>, Fault>
    ensures ok { IfOk result (λ bytes. bytes.items ≡ checkpoint_bytes checkpoint) }
    ensures len { IfOk result (λ bytes. length bytes.items ≤ 54568) }
    ensures memory { IfErr result (λ fault. fault ≡ Fault.Memory) }
{
    let Checkpoint {
        numbers,
        transactions,
        pages,
    } = checkpoint;
    let logged = Record {
        lsn: Lsn(0),
        prev: Lsn(0),
        trans: TransId(0),
        body: Body::EndCheckpoint {
            transactions,
            pages,
        },
    };
    // For the prover alone: no record is longer.
    let _ = encoded_len(&logged);
    let mut bytes = Vec::from_slice(alloc, [0; 8].as_slice())?;
    match encode(&logged, &mut bytes) {
        Ok(()) => {}
        Err(_) => return Err(Fault::Memory),
    }
    replace_front(bytes.as_mut_slice(), &numbers_bytes(&numbers));
    Ok(bytes)
}

/// The number of 64 bits at a place.
fn long(bytes: &[u8], at: usize) -> u64
    requires { at + 8 ≤ length bytes.now }
    ensures { result ≡ big_number 8 (drop at bytes.now) }
{
    let (_, rest) = bytes.split_at(at);
    BigEndian::read_u64(rest)
}

/// Whether two rows of bytes are the same.
fn is_same(a: &[u8], b: &[u8]) -> bool
    ensures same { a.now ≡ b.now → result ≡ true }
    ensures differs { result ≡ true → a.now ≡ b.now }
{
    a == b
}

/// The numbers whose fields stand at the front of bytes.
fn read_numbers(bytes: &[u8]) -> Numbers
    requires { 36 ≤ length bytes.now }
    ensures fits { AreNumbers result }
    ensures only { (n : AnyNumbers) (rest : List ℕ) → AreNumbers n
        → bytes.now ≡ numbers_bytes n ++ rest → result ≡ n }
{
    let (_, at_greatest) = bytes.split_at(8);
    Numbers {
        position: Lsn(long(bytes, 0)),
        greatest: TransId(BigEndian::read_u32(at_greatest)),
        open_checkpoint: Lsn(long(bytes, 12)),
        commits: long(bytes, 20),
        last_commit: Lsn(long(bytes, 28)),
    }
}

/// The numbers at the front of bytes, which the bytes there are made of.
fn decode_numbers(bytes: &[u8]) -> Result<Numbers, Fault>
    requires { 36 ≤ length bytes.now }
    ensures found { IfOk result (λ n. (take 36 bytes.now ≡ numbers_bytes n) × AreNumbers n) }
    ensures only { (n : AnyNumbers) (rest : List ℕ) → AreNumbers n
        → bytes.now ≡ numbers_bytes n ++ rest → Finds n result }
    ensures fault { IfErr result (λ fault. fault ≡ Fault.BadControl) }
{
    let numbers = read_numbers(bytes);
    let (front, _) = bytes.split_at(FRONT);
    if !is_same(front, numbers_bytes(&numbers).as_slice()) {
        return Err(Fault::BadControl);
    }
    Ok(numbers)
}

/// The number of 16 bits at a place.
fn half(bytes: &[u8], at: usize) -> u16
    requires { at + 2 ≤ length bytes.now }
    ensures { result ≡ big_number 2 (drop at bytes.now) }
{
    let (_, rest) = bytes.split_at(at);
    BigEndian::read_u16(rest)
}

/// How many bytes a checkpoint has that begins with these.
///
/// `BadControl`: there is none, for one has no so many rows.
pub fn checkpoint_len(front: &[u8]) -> Result<usize, Fault>
    requires { 40 ≤ length front.now }
    ensures only { (pages position : ℕ) (c : AnyCheckpoint) (rest : List ℕ)
        → IsCheckpoint pages position c
        → front.now ≡ take 40 (checkpoint_bytes c) ++ rest
        → result ≡ Found (length (checkpoint_bytes c)) }
    ensures few { IfOk result (λ len. (40 ≤ len) × (len ≤ 54568)) }
    ensures fault { IfErr result (λ fault. fault ≡ Fault.BadControl) }
{
    let transactions = half(front, 36) as usize;
    let pages = half(front, 38) as usize;
    if transactions > TransactionRows::LIMIT || pages > PageRows::LIMIT {
        return Err(Fault::BadControl);
    }
    Ok(40 + 21 * transactions + 12 * pages)
}

/// The record at the front of bytes, as a log would have it at 0.
fn decode_record(alloc: Global, bytes: &[u8], pages: u32) -> Result<Record, Fault>
    ensures found { IfOk result (λ r. (take (record_len r) bytes.now ≡ spelling r)
        × IsRecord pages r) }
    ensures only { (r : AnyRecord) (rest : List ℕ) → IsRecord pages r → r.lsn.0 ≡ 0
        → bytes.now ≡ spelling r ++ rest → Finds r result }
    ensures fault { IfErr result (λ fault. (fault ≡ Fault.BadControl) ⊎ (fault ≡ Fault.Memory)) }
{
    match decode(alloc, bytes, Lsn(0), pages) {
        Ok(Some((logged, _))) => Ok(logged),
        Err(als_record::Fault::Memory) => Err(Fault::Memory),
        Ok(None) | Err(_) => Err(Fault::BadControl),
    }
}

/// The tables that stand behind the numbers. The numbers make room for the head of an end_chkpt,
/// which then reads them.
fn decode_tables(
    alloc: Global,
    bytes: &mut [u8],
    pages: u32,
) -> Result<(TransactionRows, PageRows), Fault>
    requires { 40 ≤ length bytes.old }
    ensures found { IfOk result (λ t. BeginsWithTables pages (drop 36 bytes.old) t.0 t.1) }
    ensures only { (ts : List LoggedTransaction) (ps : List LoggedPage)
        → BeginsWithTables pages (drop 36 bytes.old) ts ps
        → Finds (ts, ps) result }
    ensures fault { IfErr result (λ fault. (fault ≡ Fault.BadControl) ⊎ (fault ≡ Fault.Memory)) }
{
    let size = 32 + 21 * half(bytes, 36) as u32 + 12 * half(bytes, 38) as u32;
    replace_front(bytes, &head_bytes(size));
    let (_, logged) = bytes.split_at(8);
    let logged = decode_record(alloc, logged, pages)?;
    tables_of(logged.body)
}

/// The tables of an end_chkpt.
fn tables_of(body: Body) -> Result<(TransactionRows, PageRows), Fault>
    ensures { result ≡ tables_of body }
{
    match body {
        Body::EndCheckpoint {
            transactions,
            pages,
        } => Ok((transactions, pages)),
        _ => Err(Fault::BadControl),
    }
}

/// The checkpoint at the front of bytes, of which the front is used up.
///
/// `BadControl`: there is no checkpoint at this position of a database with so many pages.
/// `Memory`: its rows found no room.
pub fn decode_checkpoint(
    alloc: Global,
    bytes: &mut [u8],
    pages: u32,
    position: Lsn,
) -> Result<Checkpoint, Fault>
    requires { 40 ≤ length bytes.old }
    ensures found { IfOk result (λ c. IsCheckpoint pages position.0 c × BeginsWith bytes.old c) }
    ensures only { (c : AnyCheckpoint) → IsCheckpoint pages position.0 c → BeginsWith bytes.old c
        → Finds c result }
    ensures fault { IfErr result (λ fault. (fault ≡ Fault.BadControl) ⊎ (fault ≡ Fault.Memory)) }
{
    let numbers = decode_numbers(bytes)?;
    if numbers.position.0 != position.0 {
        return Err(Fault::BadControl);
    }
    let (transactions, dirty) = decode_tables(alloc, bytes, pages)?;
    if !are_transactions(transactions.as_slice()) {
        return Err(Fault::BadControl);
    }
    if !are_pages(pages, dirty.as_slice()) {
        return Err(Fault::BadControl);
    }
    Ok(Checkpoint {
        numbers,
        transactions,
        pages: dirty,
    })
}
