use als_seats::{Asker, Leader, Outcome, Waited, seats};
use std::alloc::Global;
use std::sync::Wait;
use std::test::Fail;
use std::thread;
use std::time::{Clock, Duration};

/// The outcomes of two questions, as letters: answered, not begun or lost.
fn ask_two<R: Wait + Clock>(rt: &R, alloc: Global, asker: Asker<u8, u8>, millis: u64) -> [u8; 2] {
    let mut asker = asker;
    let mut told = [b'-', b'-'];
    let Ok(questions) = [7, 8].to_vec(alloc) else {
        return told;
    };
    let patience = Duration::from_millis(millis);
    let Ok(outcomes) = asker.ask(rt, alloc, questions, patience) else {
        return told;
    };
    let mut outcomes = outcomes;
    told[1] = letter(outcomes.pop());
    told[0] = letter(outcomes.pop());
    told
}

/// The letter of an outcome.
fn letter(outcome: Option<Outcome<u8>>) -> u8 {
    match outcome {
        Some(Outcome::Answered(_)) => b'A',
        Some(Outcome::NotBegun) => b'N',
        Some(Outcome::Lost) => b'L',
        None => b'-',
    }
}

/// Takes one question, and answers it after a while, or ends without an answer.
fn take_one<R: Wait + Clock>(rt: &R, leader: Leader<u8, u8>, answers: bool) {
    for _ in rt.forever() {
        if leader.wait(rt, Duration::from_millis(10)) == Waited::Asks {
            break;
        }
    }
    if let Some(ask) = leader.next(rt) {
        if answers {
            thread::sleep(rt, Duration::from_millis(300));
            leader.tell(rt, ask.place, ask.question);
        }
    }
    leader.end(rt);
}

#[test]
fn a_leader_that_ends_loses_what_it_took_alone(rt: HostRuntime) -> Result<(), Fail> {
    let alloc = rt.alloc();
    let (leader, askers) = seats(alloc, 1)?;
    let mut askers = askers;
    let Some(asker) = askers.pop() else {
        return Ok(());
    };
    let rt = &rt;
    let (told, ()) = thread::join(
        rt,
        move || ask_two(rt, alloc, asker, 60_000),
        move || take_one(rt, leader, false),
    );
    assert!(rt; told[0] == b'L' && told[1] == b'N');
    Ok(())
}

#[test]
fn what_is_not_begun_in_time_is_taken_back(rt: HostRuntime) -> Result<(), Fail> {
    let alloc = rt.alloc();
    let (leader, askers) = seats(alloc, 1)?;
    let mut askers = askers;
    let Some(asker) = askers.pop() else {
        return Ok(());
    };
    let rt = &rt;
    let (told, ()) = thread::join(
        rt,
        move || ask_two(rt, alloc, asker, 50),
        move || take_one(rt, leader, true),
    );
    assert!(rt; told[0] == b'A' && told[1] == b'N');
    Ok(())
}
