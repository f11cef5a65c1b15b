use als_record::{Lsn, TransId};
use als_report::{Board, Follower, FollowerRow, Refusals, Report, Reports, State, Watch, Work};
use arrayvec::ArrayVec;
use std::io;
use std::net::{IpAddr, Ipv4Addr, Ipv6Addr};
use std::sync::Arc;
use std::test::*;
use std::time::{Clock, Duration};

/// A clock that stands still.
#[derive(Drop)]
struct At(u64);

impl Clock for At {
    fn monotonic(&self) -> io::Result<Duration> {
        Ok(Duration::from_secs(self.0))
    }

    fn since_1970(&self) -> io::Result<Duration> {
        Ok(Duration::from_secs(self.0))
    }
}

#[test]
fn a_board_tells_what_was_last_seen(rt: HostRuntime) -> Result<(), Fail> {
    let board = Arc::new(rt.alloc(), Board::new())?;
    let watch = Watch::new(Arc::try_clone(&board)?, At(100));
    let first = watch.report();
    assert!(rt; first.state == State::Recovering && first.silence.is_none());
    board.set_state(State::Following);
    board.set_log(Lsn(500), Lsn(400));
    board.set_redo(7, 2);
    board.note_frame(&At(97));
    board.note_frame(&At(98));
    assert!(rt; watch.report().silence.is_none() && watch.report().waiting == Some(3));
    board.note_answer();
    board.set_capacity(1024);
    board.set_epoch(2);
    board.note_number(TransId(12));
    board.note_failure(43);
    board.note_failure(41);
    let wanted = Report {
        state: State::Following,
        end: Lsn(500),
        acknowledged: Lsn(400),
        pending: 7,
        leases: 2,
        silence: Some(3),
        waiting: None,
        capacity: Some(1024),
        failures: 2,
        last_fault: Some(41),
        epoch: Some(2),
        greatest: Some(12),
        work: Work::NOTHING,
        in_doubt: 0,
        sync: 0,
        followers: ArrayVec::new(),
        refusals: Refusals::NOTHING,
    };
    assert!(rt; watch.report() == wanted);
    for state in [
        State::Recovering,
        State::Waiting,
        State::Refusing,
        State::Sealed,
        State::Primary,
        State::Committing,
        State::Unconfirmed,
        State::Stopped,
    ] {
        board.set_state(state);
        assert!(rt; watch.report().state == state);
    }
    Ok(())
}

#[test]
fn a_refused_session_counts_as_nothing(rt: HostRuntime) -> Result<(), Fail> {
    let board = Arc::new(rt.alloc(), Board::new())?;
    let watch = Watch::new(Arc::try_clone(&board)?, At(100));
    board.set_state(State::Waiting);
    // Something came that was never acknowledged: its session is refused.
    board.note_frame(&At(90));
    assert!(rt; watch.report().state == State::Waiting && watch.report().silence.is_none());
    board.set_state(State::Waiting);
    assert!(rt; watch.report().waiting.is_none());
    // The next session's first frame is acknowledged: from then on it follows.
    board.note_frame(&At(95));
    board.note_answer();
    assert!(rt; watch.report().state == State::Following && watch.report().silence == Some(5));
    // An answer to nothing, the question of a session, counts as nothing.
    board.set_state(State::Waiting);
    board.note_answer();
    assert!(rt; watch.report().state == State::Waiting && watch.report().silence == Some(5));
    Ok(())
}

/// A follower's row, which connected in the second 40.
fn row(peer: IpAddr, acknowledged: u64, answered: u64, counts: bool) -> FollowerRow {
    FollowerRow {
        peer,
        acknowledged: Lsn(acknowledged),
        connected: 40,
        answered,
        counts,
    }
}

#[test]
fn a_board_has_the_work_of_a_primary(rt: HostRuntime) -> Result<(), Fail> {
    let board = Arc::new(rt.alloc(), Board::new())?;
    let watch = Watch::new(Arc::try_clone(&board)?, At(100));
    board.note_group(3, Duration::from_micros(1_250));
    board.note_group(1, Duration::from_millis(2));
    board.set_sync(2);
    board.set_in_doubt(5);
    let wanted = Work {
        transactions: 4,
        groups: 2,
        force_microseconds: 3_250,
    };
    let found = watch.report();
    assert!(rt; found.work == wanted && found.sync == 2 && found.in_doubt == 5);
    // A refusal without a number leaves the last number.
    board.note_refusal(Some(29));
    board.note_refusal(None);
    let wanted = Refusals {
        count: 2,
        last: Some(29),
    };
    assert!(rt; watch.report().refusals == wanted);
    Ok(())
}

#[test]
fn a_board_has_the_followers_of_a_primary(rt: HostRuntime) -> Result<(), Fail> {
    let board = Arc::new(rt.alloc(), Board::new())?;
    let watch = Watch::new(Arc::try_clone(&board)?, At(100));
    let four = IpAddr::V4(Ipv4Addr::new(192, 0, 2, 7));
    let six = IpAddr::V6(Ipv6Addr::new(0x2001, 0xdb8, 0, 1, 0, 0, 0, 0x2a));
    board.set_followers(&[row(four, 80, 97, true), row(six, 52, 40, false)]);
    let found = watch.report().followers;
    assert!(rt; found.as_slice().len() == 2);
    let first = Follower {
        peer: four,
        acknowledged: Lsn(80),
        silence: 3,
        age: 60,
        counts: true,
    };
    assert!(rt; found.as_slice()[0] == first);
    assert!(rt; found.as_slice()[1].peer == six && found.as_slice()[1].silence == 60);
    // Of nine the first eight are reported, and none of them once they left.
    board.set_followers(&[row(four, 1, 100, true); 9]);
    assert!(rt; watch.report().followers.as_slice().len() == 8);
    board.set_followers(&[]);
    assert!(rt; watch.report().followers.as_slice().is_empty());
    Ok(())
}
