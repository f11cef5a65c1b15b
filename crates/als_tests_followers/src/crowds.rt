use crate::made::{Made, follow, make, next, notice, up_to};
use als_followers::What;
use als_record::Lsn;
use std::alloc::Global;
use std::io::Read;
use std::net::{Net, TcpStream};
use std::sync::Wait;
use std::test::Fail;
use std::thread::Threads;
use std::time::{Clock, Duration};

/// Whether one who says nothing holds up nobody, eight are served at once, and a ninth is hung up on. None:
/// something failed.
fn crowd<
    R: Net<Stream = TcpStream> + Threads + Wait + Clock + Clone + Send + Sync + Drop + 'static,
>(rt: &R, alloc: Global, made: Made<R>) -> Option<bool> {
    let silent = TcpStream::connect(rt, made.at).ok()?;
    let mut streams = Vec::new(alloc);
    for _ in 0..8 {
        let mut stream = follow(rt, made.at, 16)?;
        if next(alloc, &mut stream)? != (16, 100) {
            return Some(false);
        }
        streams.push(stream).ok()?;
    }
    let ninth = follow(rt, made.at, 16).is_none();
    let mut crowded = false;
    for _ in 0..9 {
        crowded = matches!(notice(rt, &made.followers)?, What::Crowded);
    }
    drop(silent);
    drop(streams);
    let Made {
        followers,
        tail: _,
        quorum: _,
        at: _,
    } = made;
    followers.close(rt);
    Some(ninth && crowded)
}

#[test]
fn a_ninth_is_hung_up_on(rt: HostRuntime) -> Result<(), Fail> {
    let alloc = rt.alloc();
    let made = make(&rt, alloc, "127.0.0.1")?;
    assert!(rt; crowd(&rt, alloc, made) == Some(true));
    Ok(())
}

/// Whether a stranger is hung up on, and has no word in the quorum, in whose seat it may be. None: something
/// failed.
fn turn_away<
    R: Net<Stream = TcpStream> + Threads + Wait + Clock + Clone + Send + Sync + Drop + 'static,
>(rt: &R, made: Made<R>) -> Option<bool> {
    let away = follow(rt, made.at, 16).is_none();
    let told = matches!(notice(rt, &made.followers)?, What::Stranger);
    // It is reported once a minute, however often it comes.
    let again = follow(rt, made.at, 16).is_none();
    let quiet = made.followers.notice(rt).is_none();
    let seat = made.quorum.join(rt, made.at.ip(), None)?;
    made.quorum.acknowledge(rt, seat, Lsn(116), 0);
    let silent = !made
        .quorum
        .wait_for(rt, 1, up_to(16), Duration::ZERO)
        .is_enough;
    let Made {
        followers,
        tail: _,
        quorum: _,
        at: _,
    } = made;
    followers.close(rt);
    Some(away && told && again && quiet && silent)
}

#[test]
fn a_stranger_is_hung_up_on(rt: HostRuntime) -> Result<(), Fail> {
    let made = make(&rt, rt.alloc(), "10.0.0.0/8")?;
    assert!(rt; turn_away(&rt, made) == Some(true));
    Ok(())
}
