ghost use Rattle.std.specs.Prelude.{◌≡◌, OnOk, ◌++◌, codes};
ghost use Rattle.http_server.specs.Response.{IsBlank, fields_of};
ghost use Rattle.als_asking.specs.Telling.{status_of, fields_for, own_fields, written_field};
ghost use Rattle.als_asking.specs.Telling.{denied_fields, retry_field, HasText, Shows};

use crate::denied::Denied;
use crate::outcome::Outcome;
use crate::told::Told;
use crate::told_text::told_text;
use als_engine::Decision;
use als_writer::Written;
use bytes::Bytes;
use http::{HeaderName, HeaderValue, StatusCode};
use http_server::Response;
use std::alloc::{AllocError, Global};

/// Fills a response by the answer to a request. Without memory for it the response is empty: a 504 if
/// transactions may have been committed, else a 503.
pub(crate) fn show(alloc: Global, told: &Told, response: &mut Response)
    requires { IsBlank response.old }
    ensures { Shows told.now response.new }
{
    match fill(alloc, told, response) {
        Ok(()) => {}
        Err(_) => {
            response.clear();
            response.status = told.status_unwritten();
        }
    }
}

/// Fills a response by the answer to a request. After an error it may be filled in part.
#[tactic(auto, using(crate::proofs::TextLaws::text_same))]
fn fill(alloc: Global, told: &Told, response: &mut Response) -> Result<(), AllocError>
    requires { IsBlank response.old }
    ensures status { OnOk result (response.new.status ≡ status_of told.now) }
    ensures fields { OnOk result (fields_of response.new ≡ fields_for told.now) }
    ensures text { OnOk result (HasText told.now response.new.body.items) }
{
    let text = told_text(alloc, told)?;
    response.add_header(HeaderName::from_static("content-type"), json())?;
    response.add_header(HeaderName::from_static("cache-control"), no_store())?;
    let status = told.status();
    add_retry(status, response)?;
    add_own(alloc, told, response)?;
    response.status = status;
    response.body.push(Bytes::from_vec(text)?)?;
    Ok(())
}

/// Adds when to ask again, if nothing was written.
fn add_retry(status: StatusCode, response: &mut Response) -> Result<(), AllocError>
    ensures fields { OnOk result
        (fields_of response.new ≡ fields_of response.old ++ retry_field status) }
    ensures body { OnOk result (response.new.body ≡ response.old.body) }
{
    if status == StatusCode::SERVICE_UNAVAILABLE {
        response.add_header(HeaderName::from_static("retry-after"), one())?;
    }
    Ok(())
}

/// Adds the header fields that only this response has.
fn add_own(alloc: Global, told: &Told, response: &mut Response) -> Result<(), AllocError>
    ensures fields { OnOk result
        (fields_of response.new ≡ fields_of response.old ++ own_fields told.now) }
    ensures body { OnOk result (response.new.body ≡ response.old.body) }
{
    match told {
        Told::One(Outcome::Committed(written) | Outcome::Prepared(written)) => {
            add_lsn(alloc, written, response)?;
        }
        Told::Decision {
            verdict: Decision::Commit,
            outcome: Outcome::Decided(written),
            ..
        } => add_lsn(alloc, written, response)?,
        Told::Denied(why) => add_denied(*why, response)?,
        _ => {}
    }
    Ok(())
}

/// Adds the LSN of the record in the log.
fn add_lsn(alloc: Global, written: &Written, response: &mut Response) -> Result<(), AllocError>
    ensures fields { OnOk result
        (fields_of response.new ≡ fields_of response.old ++ written_field written.now) }
    ensures body { OnOk result (response.new.body ≡ response.old.body) }
{
    let lsn = HeaderValue::from_u64(alloc, written.lsn.0)?;
    response.add_header(HeaderName::from_static("als-lsn"), lsn)?;
    Ok(())
}

/// Adds what would be accepted in place of a denied request.
fn add_denied(why: Denied, response: &mut Response) -> Result<(), AllocError>
    ensures fields { OnOk result
        (fields_of response.new ≡ fields_of response.old ++ denied_fields why) }
    ensures body { OnOk result (response.new.body ≡ response.old.body) }
{
    match why {
        Denied::Method => {
            response.add_header(HeaderName::from_static("allow"), post())?;
        }
        Denied::NoRead => {
            response.add_header(HeaderName::from_static("allow"), get_and_head())?;
        }
        Denied::NoToken => {
            response.add_header(HeaderName::from_static("www-authenticate"), bearer())?;
        }
        Denied::Host | Denied::Page | Denied::OtherToken | Denied::Early | Denied::Unheard => {}
    }
    Ok(())
}

/// The content type of each text.
fn json() -> HeaderValue
    ensures { result.bytes ≡ codes "application/json" }
{
    HeaderValue::from_static("application/json")
}

/// No cache may keep a response.
fn no_store() -> HeaderValue
    ensures { result.bytes ≡ codes "no-store" }
{
    HeaderValue::from_static("no-store")
}

/// One second.
fn one() -> HeaderValue
    ensures { result.bytes ≡ codes "1" }
{
    HeaderValue::from_static("1")
}

/// The method of commits.
fn post() -> HeaderValue
    ensures { result.bytes ≡ codes "POST" }
{
    HeaderValue::from_static("POST")
}

/// The methods of reads.
fn get_and_head() -> HeaderValue
    ensures { result.bytes ≡ codes "GET, HEAD" }
{
    HeaderValue::from_static("GET, HEAD")
}

/// The scheme of a token.
fn bearer() -> HeaderValue
    ensures { result.bytes ≡ codes "Bearer" }
{
    HeaderValue::from_static("Bearer")
}
