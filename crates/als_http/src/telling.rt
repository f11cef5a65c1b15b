ghost use Rattle.std.specs.Prelude.{◌≡◌, ◌<◌, ◌≤◌, true};
ghost use Rattle.als_http.specs.Waiting.{may_wait};
ghost use Rattle.http.specs.Request.{head_of};
ghost use Rattle.als_http.specs.Telling.{named, least_of, told, is_many, allowed, directed, query_of};

use crate::asked::Asked;
use crate::asking::asked_by;
use crate::hosts::{Hosts, is_own};
use crate::query::{Query, Wrong};
use als_keys::number;
use als_record::Lsn;
use bytes::Bytes;
use http::{HeaderValue, Request};
use http_header::GetAll;

/// The header by which a client names the LSN of an earlier answer.
pub const AT_LEAST: &str = "als-at-least";

/// The header by which a client names how many seconds a read may wait for that.
pub const WAIT: &str = "als-wait";

/// The most seconds that a read may wait.
const LONGEST: u64 = 60;

/// The header by which a client names the node.
const HOST: &str = "host";

/// What a request asks of a node with these hosts.
pub fn query_of(request: &Request<Bytes>, hosts: Hosts) -> Query
    ensures { result ≡ query_of hosts (head_of request.now) }
{
    let asked = asked_by(request.uri().path());
    let lsn = named(request.headers().get_all(AT_LEAST));
    let wait = named(request.headers().get_all(WAIT));
    let query = told(asked, least_of(lsn, wait));
    let query = allowed(is_many(asked), request.method().as_str(), query);
    directed(is_own(hosts, request.headers().get_all(HOST)), query)
}

/// How many seconds a request may wait: what its field names, if it reads keys, else 0.
pub(crate) fn wait_of(request: &Request<Bytes>) -> u64
    ensures most { result ≤ 60 }
    ensures reads { 0 < result → may_wait request.now ≡ true }
{
    match query_of(request, Hosts::Any) {
        Query::Value(..) | Query::Page(..) | Query::Many(_) => {
            let wait = named(request.headers().get_all(WAIT));
            wait.unwrap_or(0).min(LONGEST)
        }
        _ => 0,
    }
}

/// The number that the field names, 0 without one. None: it is not a number, or there are two fields.
#[tactic(auto, unfolding(crate::specs::Telling::named))]
fn named(values: GetAll<'_, HeaderValue>) -> Option<u64>
    ensures { result ≡ named values.entry }
{
    let mut values = values.iter();
    let Some(value) = values.next() else {
        return Some(0);
    };
    match values.next() {
        None => number(value.as_bytes()),
        Some(_) => None,
    }
}

/// The LSN that a read is to have at least. Else what is wrong with it, or with how long it may wait.
#[tactic(auto, unfolding(crate::specs::Telling::least_of))]
fn least_of(lsn: Option<u64>, wait: Option<u64>) -> Result<Lsn, Wrong>
    ensures { result ≡ least_of lsn wait }
{
    let Some(lsn) = lsn else {
        return Err(Wrong::Lsn);
    };
    match wait {
        Some(wait) if wait <= LONGEST => Ok(Lsn(lsn)),
        _ => Err(Wrong::Wait),
    }
}

/// What a path asks for with this LSN.
#[tactic(auto, unfolding(crate::specs::Telling::told))]
fn told(asked: Asked, least: Result<Lsn, Wrong>) -> Query
    ensures { result ≡ told asked least }
{
    match asked {
        Asked::Value(key) => {
            match least {
                Ok(lsn) => Query::Value(key, lsn),
                Err(why) => Query::Refused(why),
            }
        }
        Asked::Page(page) => {
            match least {
                Ok(lsn) => Query::Page(page, lsn),
                Err(why) => Query::Refused(why),
            }
        }
        Asked::Many => {
            match least {
                Ok(lsn) => Query::Many(lsn),
                Err(why) => Query::Refused(why),
            }
        }
        Asked::Status => Query::Status,
        Asked::Metrics => Query::Metrics,
        Asked::Health => Query::Health,
        Asked::Primary => Query::Primary,
        Asked::Standby => Query::Standby,
        Asked::Console(text) => Query::Console(text),
        Asked::NoNumber => Query::Refused(Wrong::Number),
        Asked::Nothing => Query::Refused(Wrong::Path),
    }
}

/// The query, if the host is the node's; else its refusal.
#[tactic(auto, unfolding(crate::specs::Telling::directed))]
fn directed(is_own: bool, query: Query) -> Query
    ensures { result ≡ directed is_own query }
{
    if is_own {
        query
    } else {
        Query::Refused(Wrong::Host)
    }
}

/// Whether the body names the keys.
fn is_many(asked: Asked) -> bool
    ensures { result ≡ is_many asked }
{
    matches!(asked, Asked::Many)
}

/// The query, if the method is its own; else its refusal. A body that names keys comes by POST, and every
/// other query by GET or HEAD.
#[tactic(auto, unfolding(crate::specs::Telling::allowed))]
fn allowed(is_many: bool, method: &str, query: Query) -> Query
    ensures { result ≡ allowed is_many method.now query }
{
    if is_many {
        if method == "POST" {
            return query;
        }
        return Query::Refused(Wrong::Read);
    }
    if method == "GET" || method == "HEAD" {
        query
    } else {
        Query::Refused(Wrong::Method)
    }
}
