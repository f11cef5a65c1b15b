use als_seats::{Asker, Leader, Outcome, Waited, seats};
use std::alloc::{AllocError, Global};
use std::sync::Wait;
use std::test::Fail;
use std::thread;
use std::time::{Clock, Duration};

/// The requests of an asker.
const ROUNDS: u64 = 500;

/// The questions of a request.
const EACH: u64 = 3;

/// The questions of a request, from this one on.
fn questions(alloc: Global, first: u64) -> Result<Vec<u64>, AllocError> {
    let mut questions = Vec::new(alloc);
    for more in 0..EACH {
        questions.push(first.saturating_add(more))?;
    }
    Ok(questions)
}

/// Whether each question from this one on has its own answer, which is its complement.
fn are_own(outcomes: &[Outcome<u64>], first: u64) -> bool {
    let mut next = first;
    for outcome in outcomes {
        match outcome {
            Outcome::Answered(answer) if *answer == !next => {}
            _ => return false,
        }
        next = next.saturating_add(1);
    }
    outcomes.len() as u64 == EACH
}

/// Asks again and again. Returns whether each answer was its own.
fn ask_all<R: Wait + Clock>(rt: &R, alloc: Global, asker: Asker<u64, u64>, first: u64) -> bool {
    let mut asker = asker;
    let mut right = true;
    for round in 0..ROUNDS {
        let first = first.saturating_add(round.saturating_mul(EACH));
        let Ok(questions) = questions(alloc, first) else {
            return false;
        };
        match asker.ask(rt, alloc, questions, Duration::from_secs(50)) {
            Ok(outcomes) => right = right && are_own(outcomes.as_slice(), first),
            Err(_) => right = false,
        }
    }
    right
}

/// Answers `count` questions.
fn answer_all<R: Wait + Clock>(rt: &R, leader: Leader<u64, u64>, count: u64) {
    let mut left = count;
    for _ in rt.forever() {
        if left == 0 {
            break;
        }
        if leader.wait(rt, Duration::from_millis(100)) == Waited::Asks {
            if let Some(ask) = leader.next(rt) {
                leader.tell(rt, ask.place, !ask.question);
                left -= 1;
            }
        }
    }
    leader.end(rt);
}

#[test]
fn each_answer_goes_to_who_asked(rt: HostRuntime) -> Result<(), Fail> {
    let alloc = rt.alloc();
    let (leader, askers) = seats(alloc, 2)?;
    let mut askers = askers;
    let (Some(one), Some(other)) = (askers.pop(), askers.pop()) else {
        return Ok(());
    };
    let rt = &rt;
    let (rights, ()) = thread::join(
        rt,
        move || {
            thread::join(
                rt,
                move || ask_all(rt, alloc, one, 0),
                move || ask_all(rt, alloc, other, 1_000_000),
            )
        },
        move || answer_all(rt, leader, 2 * ROUNDS * EACH),
    );
    assert!(rt; rights.0 && rights.1);
    Ok(())
}
