ghost use Rattle.als_http.specs.Leaving.{IsSaid};

use crate::turn::Turn;
use bytes::Bytes;
use http::{HeaderName, HeaderValue, Request};
use http_server::{Response, Service};
use std::alloc::AllocError;

/// A service over one connection. Once the connection has lasted for its time, the next answer says that it
/// is the last one, and the connection is closed behind it: so no request is on its way then.
#[derive(Drop)]
pub(crate) struct Leaving<'a, V> {
    service: &'a mut V,
    turn: &'a Turn,
}

impl<'a, V: Service> Leaving<'a, V> {
    /// The service over the connection of this turn.
    pub fn new(service: &'a mut V, turn: &'a Turn) -> Leaving<'a, V> {
        Leaving { service, turn }
    }
}

impl<V: Service> Service for Leaving<'_, V> {
    ghost use Rattle.http_server.specs.declared.response.Response.{Response as AnyResponse};
    ghost use Rattle.als_http.specs.Leaving.{IsSaid};

    // The service's answer, which may say beside that it is the last one.
    ghost answers = { λ old request response new. (own : AnyResponse)
        × V.answers old.service.now request own new.service.now × IsSaid own response };

    fn call(
        &mut self,
        request: &Request<Bytes>,
        response: &mut Response,
    ) -> Result<(), AllocError> {
        self.service.call(request, response)?;
        if self.turn.is_last() {
            say_last(response);
        }
        Ok(())
    }
}

/// Says in an answer that it is the last one of its connection. Without memory for it, a later one says so.
fn say_last(response: &mut Response)
    ensures { IsSaid response.old response.new }
{
    let name = HeaderName::from_static("connection");
    match response.add_header(name, HeaderValue::from_static("close")) {
        Ok(()) => {}
        // The answer is as it was.
        Err(_) => {}
    }
}
