ghost use Rattle.std.specs.Prelude.{◌≡◌, IfOk, IfSome};
ghost use Rattle.als_asking.specs.Bodies.{is_blank, skipped, closes, IsClosed};
ghost use Rattle.als_asking.specs.Bodies.{AreItems, AsksBehind, Asks};

use crate::scan::item_len;
use crate::unread::{MOST, Unread};
use crate::wanted::Wanted;
use als_request::{Mistake, transaction};
use als_writer::Transaction;
use std::alloc::Global;

/// What a body asks for.
pub fn wanted_in(alloc: Global, body: &[u8]) -> Result<Wanted, Unread>
    // Each transaction is what its text says, and an array has them in the order of their texts.
    ensures asks { IfOk result (λ w. Asks body.now w) }
{
    match skipped(body).split_first() {
        Some((first, rest)) if *first == b'[' => each(alloc, rest),
        _ => one(alloc, body),
    }
}

/// The transaction in a body.
#[tactic(auto, unfolding(crate::specs::Bodies::Asks))]
fn one(alloc: Global, body: &[u8]) -> Result<Wanted, Unread>
    ensures asks { IfOk result (λ w. Asks body.now w) }
{
    match transaction(alloc, body) {
        Ok(found) => Ok(Wanted::One(found)),
        Err(Mistake::Memory) => Err(Unread::Memory),
        Err(mistake) => Err(Unread::One(mistake)),
    }
}

/// Whether a byte is a blank of JSON.
fn is_blank(byte: u8) -> bool
    ensures { result ≡ is_blank byte }
{
    byte == b' ' || byte == b'\t' || byte == b'\n' || byte == b'\r'
}

/// A text without its leading blanks.
#[tactic(auto, using(crate::proofs::BodyLaws::skipped_step, crate::proofs::BodyLaws::skipped_end, crate::proofs::BodyLaws::skipped_all))]
fn skipped(text: &[u8]) -> &[u8]
    ensures { result.now ≡ skipped text.now }
{
    let mut rest = text;
    for _ in 0..text.len() {
        match rest.split_first() {
            Some((first, more)) if is_blank(*first) => rest = more,
            _ => return rest,
        }
    }
    rest
}

/// Whether a text is a closing bracket, followed by blanks only.
#[tactic(auto, unfolding(crate::specs::Bodies::closes))]
fn closes(text: &[u8]) -> bool
    ensures { result ≡ closes text.now }
{
    match text.split_first() {
        Some((first, more)) => *first == b']' && skipped(more).is_empty(),
        None => false,
    }
}

/// The items of an array, from the text after its opening bracket. None: no bracket closes it, or more
/// follows.
fn closed(rest: &[u8]) -> Option<&[u8]>
    ensures { IfSome result (λ items. IsClosed rest.now items.now) }
{
    for i in 0..rest.len() {
        let (items, after) = rest.split_at(i);
        if closes(after) {
            return Some(items);
        }
    }
    None
}

/// The transactions of an array, from the text after its opening bracket.
fn each(alloc: Global, rest: &[u8]) -> Result<Wanted, Unread>
    ensures asks { IfOk result (λ w. AsksBehind rest.now w) }
{
    match closed(rest) {
        Some(items) => Ok(Wanted::Each(each_item(alloc, items)?)),
        None => Err(Unread::Array),
    }
}

/// The transactions of these items.
fn each_item(alloc: Global, items: &[u8]) -> Result<Vec<Transaction>, Unread>
    ensures found { IfOk result (λ ts. AreItems items.now ts.items) }
{
    let mut found = Vec::new(alloc);
    let mut rest = items;
    for place in 0..MOST {
        let (item, after) = rest.split_at(item_len(rest));
        let next = match transaction(alloc, item) {
            Ok(next) => next,
            Err(Mistake::Memory) => return Err(Unread::Memory),
            Err(mistake) => return Err(Unread::At(place + 1, mistake)),
        };
        found.push(next)?;
        match after.split_first() {
            None => return Ok(found),
            Some((comma, more)) if *comma == b',' => rest = more,
            Some(_) => return Err(Unread::Array),
        }
    }
    Err(Unread::TooMany)
}
