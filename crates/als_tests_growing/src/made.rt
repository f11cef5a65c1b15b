use std::io;
use std::net::{Ipv4Addr, Net, SocketAddr, TcpListener, TcpStream};

/// A log of a database of four pages: its header, an update of 0/0 to `aa` at 16, its commit at 52
/// and its end at 80.
pub const TEXT: [u8; 108] = [
    65, 76, 83, 76, 79, 71, 48, 49, 0, 0, 0, 4, 0, 0, 0, 0, 0, 0, 0, 36, 1, 0, 0, 0, 0, 0, 0, 0, 0,
    0, 0, 16, 0, 0, 0, 0, 0, 0, 0, 0, 0, 0, 0, 1, 0, 0, 0, 0, 0, 255, 1, 170, 0, 0, 0, 28, 3, 0, 0,
    0, 0, 0, 0, 0, 0, 0, 0, 52, 0, 0, 0, 0, 0, 0, 0, 16, 0, 0, 0, 1, 0, 0, 0, 28, 5, 0, 0, 0, 0, 0,
    0, 0, 0, 0, 0, 80, 0, 0, 0, 0, 0, 0, 0, 52, 0, 0, 0, 1,
];

/// What a follower of that log tells: a Resume frame from 16 on, of epoch 0, and two Acknowledged
/// frames of 108.
pub const TOLD: [u8; 47] = [
    0x51, 0, 0, 0, 0, 0, 0, 0, 16, 65, 76, 83, 76, 79, 71, 48, 49, 0, 0, 0, 4, 0, 0, 0, 0, 0, 0, 0,
    0, //
    0x41, 0, 0, 0, 0, 0, 0, 0, 108, //
    0x41, 0, 0, 0, 0, 0, 0, 0, 108,
];

/// What a shipper of that log sends to a follower that holds nothing: the Epochs frame of no seals,
/// the Data frame of the bytes from 16 to 108, and the last one, which has none.
pub const SENT: [u8; 131] = [
    69, 0, 0, 0, 0, 70, 0, 0, 0, 0, 0, 0, 0, 0, 0, 0, 0, 16, 0, 0, 0, 92, 0, 0, 0, 36, 1, 0, 0, 0,
    0, 0, 0, 0, 0, 0, 0, 16, 0, 0, 0, 0, 0, 0, 0, 0, 0, 0, 0, 1, 0, 0, 0, 0, 0, 255, 1, 170, 0, 0,
    0, 28, 3, 0, 0, 0, 0, 0, 0, 0, 0, 0, 0, 52, 0, 0, 0, 0, 0, 0, 0, 16, 0, 0, 0, 1, 0, 0, 0, 28,
    5, 0, 0, 0, 0, 0, 0, 0, 0, 0, 0, 80, 0, 0, 0, 0, 0, 0, 0, 52, 0, 0, 0, 1, 70, 0, 0, 0, 0, 0, 0,
    0, 0, 0, 0, 0, 108, 0, 0, 0, 0,
];

/// A port of this machine.
pub fn listen<N>(rt: &N) -> io::Result<(TcpListener, SocketAddr)>
where
    N: Net<Listener = TcpListener, Stream = TcpStream>,
{
    let listener = TcpListener::bind(rt, SocketAddr::from((Ipv4Addr::LOCALHOST, 0)))?;
    let addr = listener.local_addr()?;
    Ok((listener, addr))
}
