ghost use Rattle.std.specs.Prelude.{◌≡◌};
ghost use Rattle.http.specs.Request.{head_of};
ghost use Rattle.als_asking.specs.Entering.{is_there, looked, entered, way_of, entry_of};

use crate::denied::Denied;
use crate::guard::Guard;
use als_http::{Hosts, is_own};
use bytes::Bytes;
use http::{HeaderValue, Request};
use http_header::GetAll;

/// The path at which transactions are committed.
const COMMIT: &str = "/commit";

/// The path at which transactions are prepared.
const PREPARE: &str = "/prepare";

/// The path at which transactions in doubt are decided.
const DECIDE: &str = "/decide";

/// The path at which transactions in doubt are listed.
pub(crate) const IN_DOUBT: &str = "/in-doubt";

/// The way that a request goes.
#[derive(Clone, Copy, Debug, PartialEq, Eq)]
pub enum Entry {
    /// To the reads.
    Reads,
    /// To the commits: transactions are committed.
    Commits,
    /// Transactions are prepared.
    Prepares,
    /// A transaction in doubt is decided.
    Decides,
    /// Transactions in doubt are listed.
    InDoubt,
    /// It is denied.
    Denied(Denied),
}

/// The way that a request to a node with these hosts goes.
pub fn entry_of(request: &Request<Bytes>, guard: &Guard, hosts: Hosts) -> Entry
    ensures { result ≡ entry_of guard.now hosts (head_of request.now) }
{
    let path = request.uri().path();
    if path == COMMIT {
        return way_of(Entry::Commits, request, guard, hosts);
    }
    if path == PREPARE {
        return way_of(Entry::Prepares, request, guard, hosts);
    }
    if path == DECIDE {
        return way_of(Entry::Decides, request, guard, hosts);
    }
    if path == IN_DOUBT {
        let own = is_own(hosts, request.headers().get_all("host"));
        return looked(own, request.method().as_str());
    }
    Entry::Reads
}

/// The way of a request for a change, by its header fields.
fn way_of(to: Entry, request: &Request<Bytes>, guard: &Guard, hosts: Hosts) -> Entry
    ensures { result ≡ way_of to guard.now hosts (head_of request.now) }
{
    let headers = request.headers();
    let own = is_own(hosts, headers.get_all("host"));
    let from_page = is_there(headers.get_all("origin"));
    let denial = guard.denial(headers.get_all("authorization"));
    entered(to, own, request.method().as_str(), from_page, denial)
}

/// Whether there is such a field.
fn is_there(fields: GetAll<'_, HeaderValue>) -> bool
    ensures { result ≡ is_there fields.entry }
{
    let mut fields = fields.iter();
    match fields.next() {
        Some(_) => true,
        None => false,
    }
}

/// The way of a request for a change, by what was found out about it.
#[tactic(auto, unfolding(crate::specs::Entering::entered))]
fn entered(to: Entry, own: bool, method: &str, from_page: bool, denial: Option<Denied>) -> Entry
    ensures { result ≡ entered to own method.now from_page denial }
{
    if !own {
        return Entry::Denied(Denied::Host);
    }
    if method != "POST" {
        return Entry::Denied(Denied::Method);
    }
    if from_page {
        return Entry::Denied(Denied::Page);
    }
    match denial {
        Some(why) => Entry::Denied(why),
        None => to,
    }
}

/// The way of a request for the transactions in doubt.
#[tactic(auto, unfolding(crate::specs::Entering::looked))]
fn looked(own: bool, method: &str) -> Entry
    ensures { result ≡ looked own method.now }
{
    if !own {
        return Entry::Denied(Denied::Host);
    }
    if method == "GET" || method == "HEAD" {
        Entry::InDoubt
    } else {
        Entry::Denied(Denied::NoRead)
    }
}
