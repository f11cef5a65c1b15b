ghost use Rattle.std.specs.Prelude.{◌≡◌};

use crate::commits::Commits;
use crate::deciding::{decide, list};
use crate::entry::{Entry, entry_of};
use crate::filling::show;
use crate::guard::Guard;
use crate::manner::Manner;
use crate::taking::take;
use crate::told::Told;
use als_http::Hosts;
use bytes::Bytes;
use http::Request;
use http_server::{Response, Service};
use std::alloc::{AllocError, Global};

/// Serves the requests of one thread: changes by `commits`, everything else by `reads`.
pub struct Asking<C: Commits, R: Service> {
    alloc: Global,
    guard: Guard,
    hosts: Hosts,
    commits: C,
    reads: R,
}

impl<C: Commits + Drop, R: Service + Drop> Drop for Asking<C, R> {
    fn drop(self) {
        let Asking {
            alloc: _,
            guard,
            hosts: _,
            commits,
            reads,
        } = self;
        drop(guard);
        drop(commits);
        drop(reads);
    }
}

impl<C: Commits, R: Service> Asking<C, R> {
    /// Requests for changes have to satisfy the guard, and to name one of these hosts.
    pub fn new(alloc: Global, guard: Guard, hosts: Hosts, commits: C, reads: R) -> Asking<C, R>
        ensures guard { result.guard ≡ guard }
        ensures hosts { result.hosts ≡ hosts }
        ensures commits { result.commits ≡ commits }
        ensures reads { result.reads ≡ reads }
    {
        Asking {
            alloc,
            guard,
            hosts,
            commits,
            reads,
        }
    }
}

impl<C: Commits, R: Service> Service for Asking<C, R> {
    ghost use Rattle.std.specs.Prelude.{◌≡◌};
    ghost use Rattle.http.specs.Request.{head_of};
    ghost use Rattle.als_asking.specs.Entering.{entry_of};
    ghost use Rattle.als_asking.specs.Answering.{Answers};

    ghost answers = { λ old request response new.
        Answers R.answers C.commits C.doubts (entry_of old.guard old.hosts (head_of request)) request
        old.reads old.commits response new.reads new.commits
        × (new.guard ≡ old.guard) × (new.hosts ≡ old.hosts) };

    #[tactic(auto, unfolding(crate::specs::Answering::Answers))]
    fn call(
        &mut self,
        request: &Request<Bytes>,
        response: &mut Response,
    ) -> Result<(), AllocError> {
        match entry_of(request, &self.guard, self.hosts) {
            Entry::Reads => self.reads.call(request, response),
            Entry::Commits => {
                let manner = Manner::Commit;
                let told = take(self.alloc, &mut self.commits, manner, request.body());
                show(self.alloc, &told, response);
                Ok(())
            }
            Entry::Prepares => {
                let manner = Manner::Prepare;
                let told = take(self.alloc, &mut self.commits, manner, request.body());
                show(self.alloc, &told, response);
                Ok(())
            }
            Entry::Decides => {
                let told = decide(self.alloc, &mut self.commits, request.body());
                show(self.alloc, &told, response);
                Ok(())
            }
            Entry::InDoubt => {
                let told = list(&self.commits);
                show(self.alloc, &told, response);
                Ok(())
            }
            Entry::Denied(why) => {
                show(self.alloc, &Told::Denied(why), response);
                Ok(())
            }
        }
    }
}
