use std::alloc::Global;
use std::io;
use std::net::{Net, TcpListener};

/// Listens at an address: `HOST:PORT`, or a port alone for the loopback.
pub fn listen<R: Net>(rt: &R, alloc: Global, addr: &str) -> io::Result<R::Listener> {
    if addr.parse::<u16>().is_ok() {
        let local = format!(in alloc; "127.0.0.1:{addr}")?;
        TcpListener::bind(rt, local.as_str())
    } else {
        TcpListener::bind(rt, addr)
    }
}
