ghost use Rattle.std.specs.Prelude.{◌≡◌};
ghost use Rattle.als_http.specs.Hosts.{is_port, is_loopback, is_own};

use http::HeaderValue;
use http_header::GetAll;
use std::net::{IpAddr, Ipv4Addr, Ipv6Addr, OpenListener};

/// Which hosts a request may name. A page of another site names its own host, which its owner may point
/// at this machine.
#[derive(Clone, Copy, Debug, PartialEq, Eq)]
pub enum Hosts {
    /// Any: the names by which clients reach the node are not known.
    Any,
    /// The names of the loopback.
    Loopback,
}

impl Hosts {
    /// The hosts of a node with this listener. Any, if its address cannot be found out.
    pub fn at<L: OpenListener>(listener: &L) -> Hosts {
        match listener.local_addr() {
            Ok(addr) if is_local(addr.ip()) => Hosts::Loopback,
            Ok(_) | Err(_) => Hosts::Any,
        }
    }
}

/// Whether an address is one that the names of the loopback mean.
fn is_local(ip: IpAddr) -> bool {
    match ip {
        IpAddr::V4(ip) => ip == Ipv4Addr::LOCALHOST,
        IpAddr::V6(ip) => ip == Ipv6Addr::LOCALHOST,
    }
}

/// Whether a request with these Host fields is for this node.
#[tactic(auto, unfolding(crate::specs::Hosts::is_own))]
pub fn is_own(hosts: Hosts, fields: GetAll<'_, HeaderValue>) -> bool
    ensures { result ≡ is_own hosts fields.entry }
{
    match hosts {
        Hosts::Any => true,
        Hosts::Loopback => {
            let mut fields = fields.iter();
            match fields.next() {
                Some(host) => is_loopback(host.as_bytes()),
                None => true,
            }
        }
    }
}

/// Whether a host is a name of the loopback, with a port or without.
#[tactic(auto, unfolding(crate::specs::Hosts::is_loopback))]
fn is_loopback(host: &[u8]) -> bool
    ensures { result ≡ is_loopback host.now }
{
    if let Some(port) = host.strip_prefix(b"localhost") {
        return is_port(port);
    }
    if let Some(port) = host.strip_prefix(b"127.0.0.1") {
        return is_port(port);
    }
    match host.strip_prefix(b"[::1]") {
        Some(port) => is_port(port),
        None => false,
    }
}

/// Whether the rest of a host is empty, or a colon and a port.
#[tactic(auto, unfolding(crate::specs::Hosts::is_port))]
fn is_port(rest: &[u8]) -> bool
    ensures { result ≡ is_port rest.now }
{
    match rest.strip_prefix(b":") {
        Some(_) => true,
        None => rest.len() == 0,
    }
}
