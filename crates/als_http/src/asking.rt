ghost use Rattle.std.specs.Prelude.{◌≡◌, ◌<◌, length, IfSome};
ghost use Rattle.std.specs.List.{position_from};
ghost use Rattle.als_http.specs.Asking.{asked_by, role_asked, read_asked, page_asked, key_asked};
ghost use Rattle.als_http.specs.Asking.{page_numbered, slot_asked, is_slash};

use crate::asked::Asked;
use als_console::Text;
use als_keys::number;
use als_record::Key;

/// The greatest page or slot that a path may name.
const LAST: u64 = u32::MAX as u64;

/// What precedes the two numbers of a key, or the one of a page.
const KEYS: &[u8] = b"/keys/";

/// The path at which keys are read that a body names.
const READ: &str = "/read";

/// What a path asks for.
#[tactic(auto, unfolding(crate::specs::Asking::asked_by))]
pub fn asked_by(path: &str) -> Asked
    ensures { result ≡ asked_by path.now }
{
    if path == "/status" {
        return Asked::Status;
    }
    if path == "/metrics" {
        return Asked::Metrics;
    }
    if path == "/health" {
        return Asked::Health;
    }
    role_of(path)
}

/// What a path asks for that names a role of the node, or else a key or a text of the page.
#[tactic(auto, unfolding(crate::specs::Asking::role_asked))]
fn role_of(path: &str) -> Asked
    ensures { result ≡ role_asked path.now }
{
    if path == "/primary" {
        return Asked::Primary;
    }
    if path == "/standby" {
        return Asked::Standby;
    }
    match path.as_bytes().strip_prefix(KEYS) {
        Some(text) => slot_of(text),
        None => read_of(path),
    }
}

/// What a path asks for that names a read of many keys, or else a text of the page.
#[tactic(auto, unfolding(crate::specs::Asking::read_asked))]
fn read_of(path: &str) -> Asked
    ensures { result ≡ read_asked path.now }
{
    if path == READ {
        return Asked::Many;
    }
    page_of(path)
}

/// Which text of the page a path asks for.
#[tactic(auto, unfolding(crate::specs::Asking::page_asked))]
fn page_of(path: &str) -> Asked
    ensures { result ≡ page_asked path.now }
{
    if path == "/" {
        return Asked::Console(Text::Page);
    }
    if path == "/page.js" {
        return Asked::Console(Text::Script);
    }
    if path == "/page.css" {
        return Asked::Console(Text::Style);
    }
    Asked::Nothing
}

/// What the text after `/keys/` asks for.
fn slot_of(text: &[u8]) -> Asked
    ensures { result ≡ slot_asked text.now }
{
    match slash_in(text) {
        Some(at) => key_of(number(&text[..at]), number(&text[at + 1..])),
        None => page_numbered(number(text)),
    }
}

/// The page with this number, which must fit 32 bits.
fn page_numbered(page: Option<u64>) -> Asked
    ensures { result ≡ page_numbered page }
{
    match page {
        Some(page) if page <= LAST => Asked::Page(page as u32),
        _ => Asked::NoNumber,
    }
}

/// The position of the first slash.
fn slash_in(text: &[u8]) -> Option<usize>
    ensures value { result ≡ position_from is_slash 0 text.now }
    ensures bound { IfSome result (λ i. i < length text.now) }
{
    text.iter().position(|c| *c == b'/')
}

/// The key with these numbers, which must fit 32 bits each.
fn key_of(page: Option<u64>, slot: Option<u64>) -> Asked
    ensures { result ≡ key_asked page slot }
{
    let (Some(page), Some(slot)) = (page, slot) else {
        return Asked::NoNumber;
    };
    if page > LAST || slot > LAST {
        return Asked::NoNumber;
    }
    Asked::Value(Key {
        page: page as u32,
        slot: slot.min(255) as u8,
    })
}
