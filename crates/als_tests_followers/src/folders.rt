use crate::made::{Made, connect, follow_as, make, next, notice, up_to};
use als_compare::{Rank, ask_rank};
use als_followers::What;
use als_record::Lsn;
use std::alloc::Global;
use std::net::{Net, OpenStream, TcpStream};
use std::sync::Wait;
use std::test::Fail;
use std::thread::Threads;
use std::time::{Clock, Duration};

/// Whether a folder has one session: a second one is hung up on while the first goes on, from whatever address,
/// and counts as no second follower; once that has ended, it follows again. None: something failed.
fn come_twice<
    R: Net<Stream = TcpStream> + Threads + Wait + Clock + Clone + Send + Sync + Drop + 'static,
>(rt: &R, alloc: Global, made: Made<R>) -> Option<[bool; 6]> {
    let long = Duration::from_secs(20);
    let mut right = [false; 6];
    let mut first = follow_as(rt, made.at, 16, 1)?;
    right[0] = next(alloc, &mut first)? == (16, 100);
    right[1] = matches!(notice(rt, &made.followers)?, What::Came(Lsn(16)));
    right[2] = follow_as(rt, made.at, 16, 1).is_none()
        && matches!(notice(rt, &made.followers)?, What::Twin);
    let mut other = follow_as(rt, made.at, 16, 2)?;
    right[3] = next(alloc, &mut other)? == (16, 100)
        && made.quorum.wait_for(rt, 2, up_to(116), long).is_enough;
    drop(first);
    right[4] = matches!(notice(rt, &made.followers)?, What::Came(Lsn(16)))
        && matches!(notice(rt, &made.followers)?, What::Went(_));
    right[5] = follow_as(rt, made.at, 116, 1).is_some();
    let Made {
        followers,
        tail: _,
        quorum: _,
        at: _,
    } = made;
    followers.close(rt);
    Some(right)
}

#[test]
fn a_folder_has_one_session(rt: HostRuntime) -> Result<(), Fail> {
    let alloc = rt.alloc();
    let made = make(&rt, alloc, "127.0.0.0/8")?;
    assert!(rt; come_twice(&rt, alloc, made) == Some([true; 6]));
    Ok(())
}

/// Whether a follower that goes away while the log does not grow is let in again at once. None: something failed.
fn begin_again<
    R: Net<Stream = TcpStream> + Threads + Wait + Clock + Clone + Send + Sync + Drop + 'static,
>(rt: &R, alloc: Global, made: Made<R>) -> Option<bool> {
    let mut first = follow_as(rt, made.at, 16, 1)?;
    next(alloc, &mut first)?;
    drop(first);
    let is_in = follow_as(rt, made.at, 116, 1).is_some();
    let Made {
        followers,
        tail: _,
        quorum: _,
        at: _,
    } = made;
    followers.close(rt);
    Some(is_in)
}

#[test]
fn a_follower_that_begins_again_is_let_in(rt: HostRuntime) -> Result<(), Fail> {
    let alloc = rt.alloc();
    let made = make(&rt, alloc, "127.0.0.0/8")?;
    assert!(rt; begin_again(&rt, alloc, made) == Some(true));
    Ok(())
}

/// The rank that a node answers over a connection. None: something failed.
fn rank<R: Net<Stream = TcpStream> + Threads + Wait + Clock + Clone + Send + Sync + Drop + 'static>(
    rt: &R,
    made: Made<R>,
) -> Option<Rank> {
    let stream = connect(rt, made.at)?;
    let mut reader = stream.try_clone().ok()?;
    let mut writer = stream;
    let rank = ask_rank(&mut reader, &mut writer).ok()?;
    let Made {
        followers,
        tail: _,
        quorum: _,
        at: _,
    } = made;
    followers.close(rt);
    Some(rank)
}

#[test]
fn a_rank_is_answered(rt: HostRuntime) -> Result<(), Fail> {
    let made = make(&rt, rt.alloc(), "127.0.0.0/8")?;
    assert!(rt; rank(&rt, made) == Some(Rank { seal: 0, end: 116 }));
    Ok(())
}
