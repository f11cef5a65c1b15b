use crate::standby_command::Following;
use std::io;
use std::io::ErrorKind;
use std::net::{Net, OpenStream, TcpStream, ToSocketAddrs};
use std::time::Duration;

/// How long a connection may be silent: so many seconds. 0: as long as it likes.
pub fn silence(seconds: u64) -> Option<Duration> {
    if seconds == 0 {
        None
    } else {
        Some(Duration::from_secs(seconds))
    }
}

/// From now on a read or a write of the stream fails once it has waited so long.
pub fn bound<S: OpenStream>(stream: &S, silence: Option<Duration>) -> io::Result<()> {
    stream.set_read_timeout(silence)?;
    stream.set_write_timeout(silence)?;
    stream.set_nodelay(true)
}

/// A connection to the primary, which may be silent for as long as was asked for.
pub fn dial<R: Net>(rt: &R, following: Following<'_>) -> io::Result<R::Stream> {
    connect(rt, following.from, silence(following.timeout))
}

/// A connection to the address, which is not waited for longer either.
fn connect<R: Net>(rt: &R, addr: &str, silence: Option<Duration>) -> io::Result<R::Stream> {
    let stream = match silence {
        Some(limit) => connect_within(rt, addr, limit)?,
        None => TcpStream::connect(rt, addr)?,
    };
    bound(&stream, silence)?;
    Ok(stream)
}

/// A connection to the first of the text's addresses that answers in time.
fn connect_within<R: Net>(rt: &R, addr: &str, limit: Duration) -> io::Result<R::Stream> {
    let mut last = io::Error::from(ErrorKind::InvalidInput);
    for addr in addr.to_socket_addrs(rt)? {
        match TcpStream::connect_timeout(rt, &addr, limit) {
            Ok(stream) => return Ok(stream),
            Err(e) => last = e,
        }
    }
    Err(last)
}
