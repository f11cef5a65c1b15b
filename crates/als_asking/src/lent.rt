use bytes::Bytes;
use http::Request;
use http_server::{Response, Service};
use std::alloc::{AllocError, Global};
use std::sync::{Arc, Mutex, Wait};

/// A service that threads share: each waits until the call before its own has returned.
pub struct Lent<V: Service, R: Wait> {
    rt: R,
    shared: Arc<Mutex<V>, Global>,
}

impl<V: Service + Drop, R: Wait + Drop> Drop for Lent<V, R> {
    fn drop(self) {
        let Lent { rt, shared } = self;
        drop(shared);
        drop(rt);
    }
}

impl<V: Service, R: Wait> Lent<V, R> {
    /// A handle of the shared service.
    pub fn new(rt: R, shared: Arc<Mutex<V>, Global>) -> Lent<V, R> {
        Lent { rt, shared }
    }
}

impl<V: Service, R: Wait> Service for Lent<V, R> {
    ghost use Rattle.std.specs.Prelude.{◌≡◌};

    // Some state of the shared service answers; the handle stays as it was.
    ghost answers = { λ old request response new.
        (new ≡ old) × ((before : V) × (after : V) × V.answers before request response after) };

    fn call(
        &mut self,
        request: &Request<Bytes>,
        response: &mut Response,
    ) -> Result<(), AllocError> {
        let mut shared = self.shared.lock(&self.rt);
        shared.call(request, response)
    }
}
