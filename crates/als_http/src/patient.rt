ghost use Rattle.std.specs.Prelude.{◌≡◌, true};
ghost use Rattle.http_server.specs.Response.{IsBlank};
ghost use Rattle.als_http.specs.Waiting.{AnswersOnce, AnswersAtLast, may_wait};

use crate::connections::Connections;
use crate::limits::NAP;
use crate::telling::wait_of;
use bytes::Bytes;
use http::{Request, StatusCode};
use http_server::{Response, Service};
use std::alloc::AllocError;
use std::thread;
use std::time::{Clock, Duration};

/// How often a read is asked again in a second.
const LOOKS: u64 = 1_000 / NAP;

/// A service over a connection that a thread waits for. A read that names in `Als-Wait` how long it may wait
/// is asked again while it is answered 503: until what it names in `Als-At-Least` is published, its seconds
/// are over, or the threads are to end.
#[derive(Drop)]
pub(crate) struct Patient<'a, V, C> {
    service: &'a mut V,
    clock: &'a C,
    connections: &'a Connections,
}

impl<'a, V: Service, C: Clock> Patient<'a, V, C> {
    /// The service over a connection of these threads.
    pub fn new(
        service: &'a mut V,
        clock: &'a C,
        connections: &'a Connections,
    ) -> Patient<'a, V, C> {
        Patient {
            service,
            clock,
            connections,
        }
    }

    /// Asks again, while the answer is a 503, the threads go on and these seconds are not over.
    fn ask_on(&mut self, request: &Request<Bytes>, response: &mut Response, seconds: u64)
        requires { may_wait request.now ≡ true }
        ensures { (start : V) → AnswersAtLast V.answers request.now start response.old self.old.service.now
            → AnswersAtLast V.answers request.now start response.new self.new.service.now }
    {
        let begun = self.clock.monotonic().ok();
        for _ in 0..seconds.saturating_mul(LOOKS) {
            if response.status != StatusCode::SERVICE_UNAVAILABLE || self.ends(begun, seconds) {
                break;
            }
            self.ask_later(request, response);
        }
    }

    /// Whether no answer is waited for any more: the threads are to end, or these seconds are over. Without a
    /// clock they are.
    fn ends(&self, begun: Option<Duration>, seconds: u64) -> bool {
        match (begun, self.clock.monotonic()) {
            (Some(begun), Ok(now)) => {
                self.connections.is_closed()
                    || now.saturating_sub(begun) >= Duration::from_secs(seconds)
            }
            _ => true,
        }
    }

    /// Asks once more after a nap, where the answer is a 503.
    #[tactic(auto, using(crate::proofs::WaitingLaws::asked_again))]
    fn ask_later(&mut self, request: &Request<Bytes>, response: &mut Response)
        requires reads { may_wait request.now ≡ true }
        requires early { response.old.status ≡ 503 }
        ensures { (start : V) → AnswersAtLast V.answers request.now start response.old self.old.service.now
            → AnswersAtLast V.answers request.now start response.new self.new.service.now }
    {
        thread::sleep(self.clock, Duration::from_millis(NAP));
        response.clear();
        ask_again(self.service, request, response);
    }
}

impl<V: Service, C: Clock> Service for Patient<'_, V, C> {
    // The service's last answer.
    ghost answers = { λ old request response new.
        AnswersAtLast V.answers request old.service.now response new.service.now };

    fn call(
        &mut self,
        request: &Request<Bytes>,
        response: &mut Response,
    ) -> Result<(), AllocError> {
        self.service.call(request, response)?;
        let seconds = wait_of(request);
        if seconds > 0 {
            self.ask_on(request, response, seconds);
        }
        Ok(())
    }
}

/// Asks the service once more. Without memory for its answer the response is an empty 503.
fn ask_again<V: Service>(service: &mut V, request: &Request<Bytes>, response: &mut Response)
    requires { IsBlank response.old }
    ensures { AnswersOnce V.answers request.now service.old response.new service.new }
{
    match service.call(request, response) {
        Ok(()) => {}
        Err(_) => {
            response.clear();
            response.status = StatusCode::SERVICE_UNAVAILABLE;
        }
    }
}
