ghost use Rattle.std.specs.Prelude.{◌≡◌, OnOk, IfOk, ◌++◌, codes};
ghost use Rattle.http_server.specs.Response.{IsBlank, fields_of};
ghost use Rattle.als_http.specs.Replies.{status_of, fields_for, own_fields, type_of, HasText};
ghost use Rattle.als_http.specs.Replies.{Shows, fields_of_wrong, read_fields, tag_of};

use crate::page_fields::{add_page_fields, console_type};
use crate::query::Wrong;
use crate::reply::Reply;
use crate::wrong_text::wrong_text;
use als_record::Lsn;
use als_report::{
    health_text, many_text, metrics_text, primary_flag_text, standby_flag_text, status_text,
    unread_text, value_text,
};
use bytes::Bytes;
use http::{HeaderName, HeaderValue, StatusCode};
use http_server::Response;
use std::alloc::{AllocError, Global};

/// Fills a response by a reply. Without memory for it the response is an empty 503.
pub(crate) fn show(alloc: Global, reply: &Reply, response: &mut Response)
    requires { IsBlank response.old }
    ensures { Shows reply.now response.new }
{
    match fill(alloc, reply, response) {
        Ok(()) => {}
        Err(_) => {
            response.clear();
            response.status = StatusCode::SERVICE_UNAVAILABLE;
        }
    }
}

/// Fills a response by a reply. After an error it may be filled in part.
#[tactic(auto, using(crate::proofs::ReplyLaws::text_same))]
fn fill(alloc: Global, reply: &Reply, response: &mut Response) -> Result<(), AllocError>
    requires { IsBlank response.old }
    ensures status { OnOk result (response.new.status ≡ status_of reply.now) }
    ensures fields { OnOk result (fields_of response.new ≡ fields_for reply.now) }
    ensures text { OnOk result (HasText reply.now response.new.body.items) }
{
    let text = text_of(alloc, reply)?;
    response.add_header(HeaderName::from_static("content-type"), type_of(reply))?;
    response.add_header(HeaderName::from_static("cache-control"), no_store())?;
    add_own(alloc, reply, response)?;
    response.status = reply.status();
    response.body.push(Bytes::from_vec(text)?)?;
    Ok(())
}

/// The text of a reply.
#[tactic(auto, unfolding(crate::specs::Replies::HasText))]
fn text_of(alloc: Global, reply: &Reply) -> Result<Vec<u8>, AllocError>
    ensures { IfOk result (λ text. HasText reply.now text.items) }
{
    match reply {
        Reply::Value(answer) => value_text(alloc, answer),
        Reply::Many(many) => many_text(alloc, many),
        Reply::Unread(why) => unread_text(alloc, *why),
        Reply::Status(report, commits) => status_text(alloc, report, *commits),
        Reply::Metrics(report, commits) => metrics_text(alloc, report, *commits),
        Reply::Health(report, commits) => health_text(alloc, report.is_healthy(*commits)),
        Reply::Primary(report) => primary_flag_text(alloc, report.is_primary()),
        Reply::Standby(report, commits) => { standby_flag_text(alloc, report.is_standby(*commits)) }
        Reply::Console(text) => Ok(text.text().as_bytes().to_vec(alloc)?),
        Reply::Refused(why) => wrong_text(alloc, *why),
    }
}

/// The content type of a reply.
fn type_of(reply: &Reply) -> HeaderValue
    ensures { result.bytes ≡ type_of reply.now }
{
    match reply {
        Reply::Metrics(..) => HeaderValue::from_static("text/plain; version=0.0.4"),
        Reply::Console(text) => console_type(*text),
        _ => HeaderValue::from_static("application/json"),
    }
}

/// Adds the header fields that only this reply has.
fn add_own(alloc: Global, reply: &Reply, response: &mut Response) -> Result<(), AllocError>
    ensures fields { OnOk result
        (fields_of response.new ≡ fields_of response.old ++ own_fields reply.now) }
    ensures body { OnOk result (response.new.body ≡ response.old.body) }
{
    match reply {
        Reply::Value(answer) => add_lsn(alloc, answer.lsn, response)?,
        Reply::Many(many) => add_lsn(alloc, many.lsn, response)?,
        Reply::Console(_) => add_page_fields(response)?,
        Reply::Refused(why) => add_methods(*why, response)?,
        _ => {}
    }
    Ok(())
}

/// Adds the LSN of the last commit that is read, by which a client asks for no older answer, and by which
/// it compares two answers.
fn add_lsn(alloc: Global, lsn: Lsn, response: &mut Response) -> Result<(), AllocError>
    ensures fields { OnOk result (fields_of response.new ≡ fields_of response.old ++ read_fields lsn) }
    ensures body { OnOk result (response.new.body ≡ response.old.body) }
{
    let number = HeaderValue::from_u64(alloc, lsn.0)?;
    response.add_header(HeaderName::from_static("als-lsn"), number)?;
    response.add_header(HeaderName::from_static("etag"), tag_of(alloc, lsn)?)?;
    Ok(())
}

/// An LSN as the tag of an answer: in quotes.
fn tag_of(alloc: Global, lsn: Lsn) -> Result<HeaderValue, AllocError>
    ensures { IfOk result (λ value. value.bytes ≡ tag_of lsn) }
{
    let digits = lsn.0.to_string(alloc)?;
    let mut tag = Vec::new(alloc);
    tag.push(b'"')?;
    tag.extend_from_slice(digits.as_bytes())?;
    tag.push(b'"')?;
    match HeaderValue::from_vec(tag) {
        Ok(value) => Ok(value),
        Err(_) => Err(AllocError),
    }
}

/// Adds the allowed methods, if the request had another one.
fn add_methods(why: Wrong, response: &mut Response) -> Result<(), AllocError>
    ensures fields { OnOk result
        (fields_of response.new ≡ fields_of response.old ++ fields_of_wrong why) }
    ensures body { OnOk result (response.new.body ≡ response.old.body) }
{
    match why {
        Wrong::Method => {
            response.add_header(HeaderName::from_static("allow"), methods())?;
        }
        Wrong::Read => {
            response.add_header(HeaderName::from_static("allow"), post())?;
        }
        Wrong::Path | Wrong::Number | Wrong::Body | Wrong::Lsn | Wrong::Wait | Wrong::Host => {}
    }
    Ok(())
}

/// The allowed methods.
fn methods() -> HeaderValue
    ensures { result.bytes ≡ codes "GET, HEAD" }
{
    HeaderValue::from_static("GET, HEAD")
}

/// The method of a read whose body names keys.
fn post() -> HeaderValue
    ensures { result.bytes ≡ codes "POST" }
{
    HeaderValue::from_static("POST")
}

/// No cache may keep a response.
fn no_store() -> HeaderValue
    ensures { result.bytes ≡ codes "no-store" }
{
    HeaderValue::from_static("no-store")
}
