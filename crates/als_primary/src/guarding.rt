ghost use Rattle.std.specs.Prelude.{◌≡◌, Ok, Some, None, IfOk, IfSome};
ghost use Rattle.std.specs.Net.Addr.{MatchIp, IsLoopbackV4, IsLoopbackV6};
ghost use Rattle.als_asking.specs.declared.guard.Guard.TheVariants.{Loopback, Token};

use crate::refusal::Refusal;
use als_asking::Guard;
use std::net::{IpAddr, OpenListener};

/// Who may commit over a listener.
pub(crate) fn guard_of<L: OpenListener>(
    listener: &L,
    token: Option<Vec<u8>>,
) -> Result<Guard, Refusal>
    ensures token { IfSome token (λ bytes. IfOk result (λ guard. guard ≡ Token bytes)) }
{
    let addr = listener.local_addr()?;
    guard_at(addr.ip(), token)
}

/// Who may commit over an address: clients with the token, or, without a token, all clients of a loopback
/// address. Unguarded: another address, and no token.
fn guard_at(ip: IpAddr, token: Option<Vec<u8>>) -> Result<Guard, Refusal>
    ensures token { IfSome token (λ bytes. result ≡ Ok (Token bytes)) }
    ensures loopback { token ≡ None
        → IfOk result (λ guard. (guard ≡ Loopback) × MatchIp ip IsLoopbackV4 IsLoopbackV6) }
{
    match token {
        Some(token) => Ok(Guard::Token(token)),
        None if ip.is_loopback() => Ok(Guard::Loopback),
        None => Err(Refusal::Unguarded),
    }
}
