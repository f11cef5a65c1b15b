ghost use Rattle.std.specs.Prelude.{◌≡◌, bytes_eq, option_copied};
ghost use Rattle.als_asking.specs.Entering.{token_in, denied_by, guarded};

use crate::denied::Denied;
use http::HeaderValue;
use http_header::GetAll;

/// What precedes a token in its field.
const SCHEME: &[u8] = b"Bearer ";

/// Who may commit. It is neither printed nor copied.
#[derive(Drop)]
pub enum Guard {
    /// All clients of the listener, whose address is a loopback one.
    Loopback,
    /// Clients that send this token.
    Token(Vec<u8>),
}

impl Guard {
    /// Why a request with these Authorization fields is denied. None: it is accepted.
    #[tactic(auto, unfolding(crate::specs::Entering::guarded))]
    pub fn denial(&self, fields: GetAll<'_, HeaderValue>) -> Option<Denied>
        ensures { result ≡ guarded self.now (token_in fields.entry) }
    {
        match self {
            Guard::Loopback => None,
            Guard::Token(token) => denial_of(token.as_slice(), token_in(fields)),
        }
    }
}

/// Why a request with the token `given` is denied if `token` is wanted. None: it is accepted.
fn denial_of(token: &[u8], given: Option<&[u8]>) -> Option<Denied>
    ensures { result ≡ denied_by token.now (option_copied given.entry) }
{
    match given {
        None => Some(Denied::NoToken),
        Some(given) if is_same(given, token) => None,
        Some(_) => Some(Denied::OtherToken),
    }
}

/// The token in these Authorization fields. None: there is no field, or there are two.
#[tactic(auto, unfolding(crate::specs::Entering::token_in))]
fn token_in<'a>(fields: GetAll<'a, HeaderValue>) -> Option<&'a [u8]>
    ensures { option_copied result ≡ token_in fields.entry }
{
    let mut fields = fields.iter();
    let field = fields.next()?;
    match fields.next() {
        None => field.as_bytes().strip_prefix(SCHEME),
        Some(_) => None,
    }
}

/// Whether two texts are the same. The time that it takes depends on their lengths only.
#[tactic(auto, using(crate::proofs::SameLaws::same_step))]
fn is_same(one: &[u8], other: &[u8]) -> bool
    ensures { result ≡ bytes_eq one.now other.now }
{
    if one.len() != other.len() {
        return false;
    }
    let mut same = true;
    for i in 0..one.len() {
        same = same & (one[i] == other[i]);
    }
    same
}
