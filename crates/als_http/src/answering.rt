ghost use Rattle.std.specs.Prelude.{◌≡◌};
ghost use Rattle.http_server.specs.Response.{IsBlank};
ghost use Rattle.als_http.specs.Replies.{Replies, RepliesAll, RepliesAsked, GoesOn, Answers};

use crate::filling::show;
use crate::hosts::Hosts;
use crate::query::{Query, Wrong};
use crate::reply::Reply;
use crate::telling::query_of;
use als_keys::{Unasked, keys_of, page_keys};
use als_record::{Key, Lsn};
use als_report::{Reports, Unread, published, read, read_many};
use als_view::Reader;
use bytes::Bytes;
use http::Request;
use http_server::{Response, Service};
use std::alloc::{AllocError, Global};

/// Answers the requests of one thread, by a reader and a reporter of its own. It never waits.
pub struct Answering<S: Reports> {
    alloc: Global,
    reader: Reader,
    standing: S,
    hosts: Hosts,
}

// Written out: a derived drop is proved wherever a value is dropped, this one only here.
impl<S: Reports + Drop> Drop for Answering<S> {
    fn drop(self) {
        let Answering {
            alloc: _,
            reader,
            standing,
            hosts: _,
        } = self;
        drop(reader);
        drop(standing);
    }
}

impl<S: Reports> Answering<S> {
    /// Answers by this reader and reporter, whatever host a request names.
    pub fn new(alloc: Global, reader: Reader, standing: S) -> Answering<S>
        ensures reader { result.reader ≡ reader }
        ensures hosts { result.hosts ≡ Hosts.Any }
    {
        Answering {
            alloc,
            reader,
            standing,
            hosts: Hosts::Any,
        }
    }

    /// From now on only requests that name these hosts are answered.
    pub fn answer_for(&mut self, hosts: Hosts)
        ensures { self.new ≡ record self.old { hosts = hosts } }
    {
        self.hosts = hosts;
    }

    /// The reply to a query, with the body of its request.
    #[tactic(auto, using(crate::proofs::ReplyLaws::goes_on_self))]
    pub fn reply(&mut self, query: Query, body: &[u8]) -> Reply
        ensures reply { Replies (S.tells self.old.standing) query body.now result self.old.reader
            self.new.reader }
        ensures reader { GoesOn self.old.reader self.new.reader }
        ensures standing { self.new.standing ≡ self.old.standing }
    {
        match query {
            Query::Value(key, at_least) => match read(&mut self.reader, key, at_least) {
                Ok(answer) => Reply::Value(answer),
                Err(why) => Reply::Unread(why),
            },
            Query::Page(page, at_least) => self.read_all(&page_keys(page), at_least),
            Query::Many(at_least) => self.read_asked(body, at_least),
            Query::Status => {
                let report = self.standing.report();
                Reply::Status(report, published(&mut self.reader))
            }
            Query::Metrics => {
                let report = self.standing.report();
                Reply::Metrics(report, published(&mut self.reader))
            }
            Query::Health => {
                let report = self.standing.report();
                Reply::Health(report, published(&mut self.reader))
            }
            Query::Primary => Reply::Primary(self.standing.report()),
            Query::Standby => {
                let report = self.standing.report();
                Reply::Standby(report, published(&mut self.reader))
            }
            Query::Console(text) => Reply::Console(text),
            Query::Refused(why) => Reply::Refused(why),
        }
    }

    /// The reply to a read of the keys that a body names.
    #[tactic(auto, using(crate::proofs::ReplyLaws::goes_on_self))]
    fn read_asked(&mut self, body: &[u8], at_least: Lsn) -> Reply
        ensures reply { RepliesAsked body.now at_least result self.old.reader self.new.reader }
        ensures reader { GoesOn self.old.reader self.new.reader }
        ensures standing { self.new.standing ≡ self.old.standing }
    {
        match keys_of(self.alloc, body) {
            Ok(keys) => self.read_all(keys.as_slice(), at_least),
            Err(Unasked::Memory) => Reply::Unread(Unread::Memory),
            Err(Unasked::NoKeys) => Reply::Refused(Wrong::Body),
        }
    }

    /// The reply to a read of these keys.
    fn read_all(&mut self, keys: &[Key], at_least: Lsn) -> Reply
        ensures reply { RepliesAll keys.now at_least result self.old.reader self.new.reader }
        ensures reader { GoesOn self.old.reader self.new.reader }
        ensures standing { self.new.standing ≡ self.old.standing }
    {
        match read_many(self.alloc, &mut self.reader, keys, at_least) {
            Ok(many) => Reply::Many(many),
            Err(why) => Reply::Unread(why),
        }
    }

    /// Fills a response by the reply to a query with the body of its request.
    fn respond(&mut self, query: Query, body: &[u8], response: &mut Response)
        requires { IsBlank response.old }
        ensures { Answers (S.tells self.old.standing) query body.now self.old.reader response.new
            self.new.reader }
    {
        let made = self.reply(query, body);
        show(self.alloc, &made, response);
    }
}

impl<S: Reports> Service for Answering<S> {
    ghost use Rattle.http.specs.Request.{head_of, body_of};
    ghost use Rattle.als_http.specs.Telling.{query_of};

    ghost answers = { λ old request response new.
        Answers (S.tells old.standing) (query_of old.hosts (head_of request)) (body_of request)
        old.reader response new.reader };

    fn call(
        &mut self,
        request: &Request<Bytes>,
        response: &mut Response,
    ) -> Result<(), AllocError> {
        let query = query_of(request, self.hosts);
        self.respond(query, request.body(), response);
        Ok(())
    }
}
