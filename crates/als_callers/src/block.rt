ghost use Rattle.std.specs.Prelude.{◌≡◌, ◌≤◌, ◌<◌, ◌-◌, ◌^◌, ◌/◌, ◌↔◌, ◌⊎◌, ℕ, IsTrue, IsFalse, IfSome, IfNone};
ghost use Rattle.std.specs.Net.Addr.{ipv4_bits, ipv6_bits};
ghost use Rattle.std.specs.declared.net.ip_addr.IpAddr.{IpAddr as AnyIpAddr};
ghost use Rattle.als_callers.specs.Blocks.{width_of, Spells, IsCanonical, HaveSameFront};

use std::net::{IpAddr, Ipv4Addr, Ipv6Addr};

/// A block of addresses: those whose first bits are those of one address.
#[derive(Clone, Copy)]
pub struct Block {
    addr: IpAddr,
    /// How many bits, at most the width of the address.
    bits: u8,
    ghost fits: { bits ≤ width_of addr },
}

impl Block {
    /// Parses `ADDR` or `ADDR/BITS`. None: the text names no block, or the address is an IPv4-mapped one.
    pub fn parse(text: &str) -> Option<Block>
        ensures found { IfSome result (λ block. Spells text.now block.addr block.bits
            × IsCanonical block.addr block.addr) }
        // None only where there is no such block.
        ensures none { IfNone result ((addr : AnyIpAddr) (bits : ℕ) → Spells text.now addr bits
            → bits ≤ width_of addr → IsCanonical addr addr → ⊥) }
    {
        match parts(text) {
            Some((addr, bits)) => Block::of(addr, bits),
            None => None,
        }
    }

    /// The block of an address and this many of its bits. None: it has fewer bits, or is IPv4-mapped.
    fn of(addr: IpAddr, bits: u8) -> Option<Block>
        ensures found { IfSome result (λ block. (block.addr ≡ addr) × (block.bits ≡ bits)
            × IsCanonical addr addr) }
        ensures none { IfNone result (bits ≤ width_of addr → IsCanonical addr addr → ⊥) }
    {
        if bits > width(addr) || is_mapped(addr) {
            return None;
        }
        Some(Block { addr, bits })
    }

    /// Whether the block contains an address. An IPv4-mapped address counts as its IPv4 address.
    pub fn has(&self, peer: IpAddr) -> bool
        ensures { IsTrue result ↔ ((own : AnyIpAddr) × IsCanonical peer own
            × HaveSameFront self.now.bits self.now.addr own) }
    {
        have_same_front(self.bits, self.addr, peer.to_canonical())
    }
}

/// The address and the number of bits that a text names.
fn parts(text: &str) -> Option<(IpAddr, u8)>
    ensures found { IfSome result (λ p. Spells text.now p.0 p.1) }
    ensures none { IfNone result ((addr : AnyIpAddr) (bits : ℕ) → Spells text.now addr bits
        → bits < 256 → ⊥) }
{
    match text.parse::<IpAddr>() {
        Ok(addr) => Some((addr, width(addr))),
        Err(_) => match text.split_once('/') {
            Some((front, digits)) => both(front.parse::<IpAddr>().ok(), digits.parse::<u8>().ok()),
            None => None,
        },
    }
}

/// Both, where both are there.
fn both(addr: Option<IpAddr>, bits: Option<u8>) -> Option<(IpAddr, u8)>
    ensures found { IfSome result (λ p. (addr ≡ Some p.0) × (bits ≡ Some p.1)) }
    ensures none { IfNone result ((addr ≡ None) ⊎ (bits ≡ None)) }
{
    match (addr, bits) {
        (Some(addr), Some(bits)) => Some((addr, bits)),
        _ => None,
    }
}

/// Whether it is an IPv4-mapped address.
fn is_mapped(addr: IpAddr) -> bool
    ensures { IsFalse result ↔ IsCanonical addr addr }
{
    match (addr, addr.to_canonical()) {
        (IpAddr::V6(_), IpAddr::V4(_)) => true,
        _ => false,
    }
}

/// Whether two addresses are of one family and agree in their first bits.
fn have_same_front(bits: u8, one: IpAddr, other: IpAddr) -> bool
    requires { bits ≤ width_of one }
    ensures { IsTrue result ↔ HaveSameFront bits one other }
{
    match (one, other) {
        (IpAddr::V4(one), IpAddr::V4(other)) => {
            front_of_v4(one, bits) == front_of_v4(other, bits)
        }
        (IpAddr::V6(one), IpAddr::V6(other)) => {
            front_of_v6(one, bits) == front_of_v6(other, bits)
        }
        (IpAddr::V4(_), IpAddr::V6(_)) | (IpAddr::V6(_), IpAddr::V4(_)) => false,
    }
}

/// How many bits an address has.
fn width(addr: IpAddr) -> u8
    ensures { result ≡ width_of addr }
{
    match addr {
        IpAddr::V4(_) => 32,
        IpAddr::V6(_) => 128,
    }
}

/// The first bits of an address, as a number.
fn front_of_v4(addr: Ipv4Addr, bits: u8) -> u64
    requires { bits ≤ 32 }
    ensures { result ≡ ipv4_bits addr / 2 ^ (32 - bits) }
{
    u64::from(addr.to_bits()) >> (32 - u32::from(bits))
}

/// The first bits of an address, as a number.
fn front_of_v6(addr: Ipv6Addr, bits: u8) -> u128
    requires { bits ≤ 128 }
    ensures { result ≡ ipv6_bits addr / 2 ^ (128 - bits) }
{
    let number = addr.to_bits();
    if bits == 0 {
        return 0;
    }
    number >> (128 - u32::from(bits))
}
