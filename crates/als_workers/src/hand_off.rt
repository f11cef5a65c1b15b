ghost use Rattle.std.specs.Prelude.{◌≡◌, ℕ, ◌<◌, ◌≤◌, List, IfOk, IfErr, OnOk, MatchOption};
ghost use Rattle.crossbeam_channel.specs.Claims.{view, IsSeatAt};
ghost use Rattle.crossbeam_channel.specs.Ends.{receives_on};
ghost use Rattle.als_workers.specs.Rule.{new_pass, has_put, has_taken, was_refused, without_part, joined};
ghost use Rattle.als_workers.specs.Passes.{IsPassOf, HaveBeenPut};

use crate::job::Job;
use crate::queue::HandOff;
use crate::rule::{Back, Cut, Fair, Pass, PassState, Puts, Receiver, Takes, Total};
use std::alloc::{AllocError, Global};
use std::sync::Wait;
use std::sync::atomic::{AtomicU64, Ordering};

/// The queue holds at most this many jobs.
const CAPACITY: usize = 64;

impl HandOff {
    /// Makes an empty queue, and its first pass, which has all 1024 parts.
    #[tactic(auto, using(crate::proofs::Moves::begins))]
    pub fn new(alloc: Global) -> Result<(HandOff, Pass), AllocError>
        ensures { IfOk result (λ made. IsPassOf made.0 made.1 × (view made.1 ≡ new_pass 1024)) }
    {
        let (sender, receiver, pass) = crossbeam_channel::bounded_with::<
            Job,
            PassState,
            Fair,
            Global,
        >(alloc, CAPACITY)?;
        let jobs = AtomicU64::new(0);
        Ok((
            HandOff {
                sender,
                receiver,
                jobs,
            },
            pass,
        ))
    }

    /// How many jobs are queued: never too few, and too many only while a thread is inside `put` or
    /// `take`. It paces a dispatcher. No clause speaks of it.
    pub fn jobs(&self) -> u64 {
        self.jobs.load(Ordering::SeqCst)
    }

    /// Cuts off a pass of one part, which has put and taken nothing.
    pub fn cut(&self, pass: &mut Pass) -> Pass
        requires queue { IsPassOf self.now pass.old }
        requires parts { 1 < (view pass.old).parts }
        ensures queue { IsPassOf self.now pass.new × IsPassOf self.now result }
        ensures left { view pass.new ≡ without_part (view pass.old) }
        ensures right { view result ≡ new_pass 1 }
    {
        self.sender.another::<Cut>(pass)
    }

    /// Joins another pass to this one, which then has the parts of both and knows what both put and
    /// took.
    pub fn join(&self, pass: &mut Pass, other: Pass)
        requires queue { IsPassOf self.now pass.old × IsPassOf self.now other }
        requires parts { 0 < (view pass.old).parts }
        ensures queue { IsPassOf self.now pass.new }
        ensures both { view pass.new ≡ joined (view pass.old) (view other) }
    {
        self.sender.absorb::<Cut>(pass, other);
    }

    /// Puts a job at the back of the queue, and waits while the queue is full. An `Err` hands the job
    /// back, and nothing was put. The pass records which of the two it was.
    pub fn put<R: Wait>(&self, rt: &R, pass: &mut Pass, job: Job) -> Result<(), Job>
        requires queue { IsPassOf self.now pass.old }
        requires parts { 0 < (view pass.old).parts }
        ensures queue { IsPassOf self.now pass.new }
        ensures put { OnOk result (view pass.new ≡ has_put (view pass.old) job) }
        ensures back { IfErr result (λ back. (back ≡ job) × (view pass.new ≡ was_refused (view pass.old))) }
    {
        self.jobs.fetch_add(1, Ordering::SeqCst);
        match self.sender.send_as::<Puts, R>(rt, pass, job) {
            Ok(()) => Ok(()),
            Err(refused) => {
                self.jobs.fetch_sub(1, Ordering::SeqCst);
                self.note_back(pass);
                Err(refused.into_inner())
            }
        }
    }

    /// Records in a pass that a job came back.
    fn note_back(&self, pass: &mut Pass)
        requires queue { IsPassOf self.now pass.old }
        requires parts { 0 < (view pass.old).parts }
        ensures queue { IsPassOf self.now pass.new }
        ensures back { view pass.new ≡ was_refused (view pass.old) }
    {
        let _ = self.sender.another::<Back>(pass);
    }

    /// Takes the job at the front of the queue, and waits while there is none. With `None` nothing
    /// was taken, and nothing will come.
    pub fn take<R: Wait>(&self, rt: &R, pass: &mut Pass) -> Option<Job>
        requires queue { IsPassOf self.now pass.old }
        requires parts { 0 < (view pass.old).parts }
        ensures queue { IsPassOf self.now pass.new }
        ensures taken { MatchOption result (view pass.new ≡ view pass.old)
            (λ job. view pass.new ≡ has_taken (view pass.old) job) }
    {
        let job = receive(&self.receiver, rt, pass);
        if job.is_some() {
            self.jobs.fetch_sub(1, Ordering::SeqCst);
        }
        job
    }

    /// Changes nothing. The pass that joined all others learns the balance of the whole queue: the
    /// pairs put are those taken and those still queued, each as often, and of the stops put those
    /// not taken are still queued.
    pub fn settle(&self, pass: &mut Pass)
        requires queue { IsPassOf self.now pass.old }
        requires parts { (view pass.old).parts ≡ 1024 }
        ensures queue { IsPassOf self.now pass.new × (view pass.new ≡ view pass.old) }
        ensures whole { (left : List (ℕ × ℕ)) × HaveBeenPut (view pass.old).put (view pass.old).taken left }
        ensures stops { (view pass.old).stops_taken ≤ (view pass.old).stops_put }
    {
        self.sender.learn_as::<Total>(pass);
    }
}

// Takes the job at the front of the queue.
fn receive<R: Wait>(receiver: &Receiver, rt: &R, pass: &mut Pass) -> Option<Job>
    requires queue { IsSeatAt (receives_on receiver.now) pass.old }
    requires parts { 0 < (view pass.old).parts }
    ensures queue { IsSeatAt (receives_on receiver.now) pass.new }
    ensures taken { MatchOption result (view pass.new ≡ view pass.old)
        (λ job. view pass.new ≡ has_taken (view pass.old) job) }
{
    receiver.recv_as::<Takes, R>(rt, pass).ok()
}
