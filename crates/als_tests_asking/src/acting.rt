use als_asking::{Asking, Commits, Doubt, Guard, Outcome};
use als_http::{Hosts, config_with};
use als_record::{Lsn, TransId};
use als_writer::Work;
use bytes::Bytes;
use http::{Request, StatusCode};
use http_server::{Connection, Response, Service, serve};
use std::alloc::{AllocError, Global};
use std::hash::RandomState;

/// The bytes of a body, at most.
const BODY: usize = 65_536;

/// Returns this outcome for each piece of work. Transactions 7 and 9 are in doubt.
pub struct Acting {
    pub alloc: Global,
    pub outcome: Outcome,
}

impl Drop for Acting {
    fn drop(self) {
        let Acting {
            alloc: _,
            outcome: _,
        } = self;
    }
}

impl Commits for Acting {
    ghost commits = { λ old asked outcomes new. Unit {0} };

    ghost doubts = { λ acting found. Unit {0} };

    fn commit(&mut self, asked: Vec<Work>) -> Vec<Outcome> {
        let mut outcomes = Vec::new(self.alloc);
        // Where there is no memory for them, they are lost.
        let _ = outcomes.resize(asked.len(), self.outcome);
        outcomes
    }

    fn in_doubt(&self) -> Option<Vec<Doubt>> {
        let mut found = Vec::new(self.alloc);
        for (trans, lsn) in [(7, 52), (9, 180)] {
            found
                .push(Doubt {
                    trans: TransId(trans),
                    lsn: Lsn(lsn),
                })
                .ok()?;
        }
        Some(found)
    }
}

/// Answers each read by 404.
pub struct Nothing;

impl Drop for Nothing {
    fn drop(self) {
        let Nothing = self;
    }
}

impl Service for Nothing {
    ghost answers = { λ old request response new. Unit {0} };

    fn call(
        &mut self,
        _request: &Request<Bytes>,
        response: &mut Response,
    ) -> Result<(), AllocError> {
        response.status = StatusCode::NOT_FOUND;
        Ok(())
    }
}

/// What is answered to these bytes, where a transaction has this outcome.
fn answered(
    alloc: Global,
    keys: RandomState,
    guard: Guard,
    outcome: Outcome,
    request: &[u8],
) -> Option<Vec<u8>> {
    let acting = Acting { alloc, outcome };
    let mut asking = Asking::new(alloc, guard, Hosts::Loopback, acting, Nothing);
    let mut connection = Connection::new(alloc, keys, config_with(BODY));
    let mut request = request;
    let mut answer = Vec::new(alloc);
    serve(&mut connection, &mut asking, &mut request, &mut answer).ok()?;
    Some(answer)
}

/// Whether these bytes are answered by those.
pub fn gives(
    alloc: Global,
    keys: RandomState,
    guard: Guard,
    outcome: Outcome,
    request: &str,
    answer: &str,
) -> bool {
    match answered(alloc, keys, guard, outcome, request.as_bytes()) {
        Some(found) => found.as_slice() == answer.as_bytes(),
        None => false,
    }
}

/// Whether what is answered to these bytes begins so.
pub fn begins(
    alloc: Global,
    keys: RandomState,
    guard: Guard,
    outcome: Outcome,
    request: &str,
    front: &str,
) -> bool {
    match answered(alloc, keys, guard, outcome, request.as_bytes()) {
        Some(found) => found.as_slice().starts_with(front.as_bytes()),
        None => false,
    }
}
