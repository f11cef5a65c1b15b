ghost use Rattle.std.specs.Prelude.{◌≡◌};
ghost use Rattle.als_asking.specs.Withholding.{reads_commits, reads_keys};

use crate::entry::IN_DOUBT;
use crate::filling::show;
use crate::shown::Shown;
use crate::told::Told;
use als_http::{Asked, asked_by};
use bytes::Bytes;
use http::Request;
use http_server::{Response, Service};
use std::alloc::{AllocError, Global};
use std::sync::Arc;
use std::time::Clock;

/// A service that reads no commit before the log with which its primary began is confirmed: until then the
/// last commits of that log may be lost with this node, though it has forced them. Nor does it once too few standbys
/// answer the primary: another node may have been taken over, and have newer ones.
pub struct Withheld<V: Service, R> {
    alloc: Global,
    clock: R,
    shown: Arc<Shown, Global>,
    service: V,
}

impl<V: Service + Drop, R: Drop> Drop for Withheld<V, R> {
    fn drop(self) {
        let Withheld {
            alloc: _,
            clock,
            shown,
            service,
        } = self;
        drop(clock);
        drop(shown);
        drop(service);
    }
}

impl<V: Service, R> Withheld<V, R> {
    /// The service, of which commits are withheld where standbys do not confirm them.
    pub fn new(alloc: Global, clock: R, shown: Arc<Shown, Global>, service: V) -> Withheld<V, R>
        ensures service { result.service ≡ service }
    {
        Withheld {
            alloc,
            clock,
            shown,
            service,
        }
    }
}

impl<V: Service, R: Clock> Service for Withheld<V, R> {
    ghost use Rattle.std.specs.Prelude.{◌≡◌, ◌⊎◌, true};
    ghost use Rattle.http.specs.Request.{head_of};
    ghost use Rattle.http_uri.specs.Uri.{uri_path};
    ghost use Rattle.als_asking.specs.declared.denied.Denied.{Denied as AnyDenied};
    ghost use Rattle.als_asking.specs.declared.told.Told.TheVariants.{Denied};
    ghost use Rattle.als_asking.specs.Telling.{Shows};
    ghost use Rattle.als_asking.specs.Withholding.{reads_commits, IsWithheld};

    // The service answers; or nothing does, and the request reads commits.
    ghost answers = { λ old request response new.
        V.answers old.service request response new.service
        ⊎ ((new ≡ old) × (reads_commits (uri_path (head_of request).uri) ≡ true)
        × (why : AnyDenied) × IsWithheld why × Shows (Denied why) response) };

    fn call(
        &mut self,
        request: &Request<Bytes>,
        response: &mut Response,
    ) -> Result<(), AllocError> {
        if reads_commits(request.uri().path()) {
            if let Some(why) = self.shown.why_withheld(&self.clock) {
                show(self.alloc, &Told::Denied(why), response);
                return Ok(());
            }
        }
        self.service.call(request, response)
    }
}

/// Whether the answer to a request for this path tells of commits.
fn reads_commits(path: &str) -> bool
    ensures { result ≡ reads_commits path.now }
{
    path == IN_DOUBT || reads_keys(asked_by(path))
}

/// Whether keys are asked for: one, those of a page, or those that a body names.
fn reads_keys(asked: Asked) -> bool
    ensures { result ≡ reads_keys asked }
{
    matches!(asked, Asked::Value(_) | Asked::Page(_) | Asked::Many)
}
