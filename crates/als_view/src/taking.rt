ghost use Rattle.std.specs.Prelude.{◌≡◌, ℕ, ◌<◌, ◌≤◌, ◌++◌, length, Some, OnOk, OnErr};
ghost use Rattle.std.specs.Prelude.{MatchResult};
ghost use Rattle.als_view.specs.Moving.{MovesFirst};
ghost use Rattle.als_view.specs.Entries.{AreCommits};
ghost use Rattle.als_view.specs.Views.{all_by, published_by, IsSameView};

use crate::publisher::Publisher;
use als_commits::Waiting;
use std::alloc::AllocError;
use std::sync::Wait;

impl Publisher {
    /// Queues the next commit that waits, if there is one, for the next publish. At an `Err` it
    /// waits on.
    fn take_next(&mut self, waiting: &mut Waiting) -> Result<(), AllocError>
        requires { 0 < length waiting.old.queued }
        ensures same { IsSameView self.old self.new }
        ensures published { published_by self.new ≡ published_by self.old }
        ensures moves { MatchResult result
            (λ _. MovesFirst 1 1 (all_by self.old) waiting.old.queued (all_by self.new)
            waiting.new.queued)
            (λ _. (all_by self.new ≡ all_by self.old)
            × (waiting.new.queued ≡ waiting.old.queued)) }
    {
        let Some(commit) = waiting.pop() else {
            return Ok(());
        };
        match self.queue(commit) {
            Ok(()) => Ok(()),
            Err(commit) => {
                waiting.put_back(commit);
                Err(AllocError)
            }
        }
    }

    /// Queues the first commits that wait for the next publish. At an `Err` some of them may be
    /// queued; the others wait on.
    pub fn take_first(&mut self, waiting: &mut Waiting, count: usize) -> Result<(), AllocError>
        requires { count ≤ length waiting.old.queued }
        ensures same { IsSameView self.old self.new }
        ensures published { published_by self.new ≡ published_by self.old }
        ensures ok { OnOk result (MovesFirst count count (all_by self.old) waiting.old.queued
            (all_by self.new) waiting.new.queued) }
        ensures moves { (moved : ℕ) × MovesFirst moved count (all_by self.old) waiting.old.queued
            (all_by self.new) waiting.new.queued }
    {
        for _ in 0..count {
            self.take_next(waiting)?;
        }
        Ok(())
    }

    /// Publishes the first commits that wait, behind those that are queued, all at once, and opens
    /// the list if need be. At an `Err` readers see what they saw; some of the commits may be
    /// queued, and the others wait on.
    pub fn publish_first<R: Wait>(
        &mut self,
        rt: &R,
        waiting: &mut Waiting,
        count: usize,
    ) -> Result<(), AllocError>
        requires count { count ≤ length waiting.old.queued }
        requires commits { AreCommits (all_by self.old ++ waiting.old.queued) }
        ensures same { IsSameView self.old self.new }
        ensures ok { OnOk result (MovesFirst count count (all_by self.old) waiting.old.queued
            (all_by self.new) waiting.new.queued
            × (published_by self.new ≡ Some (all_by self.new))) }
        ensures moves { (moved : ℕ) × MovesFirst moved count (all_by self.old) waiting.old.queued
            (all_by self.new) waiting.new.queued }
        ensures err { OnErr result (published_by self.new ≡ published_by self.old) }
    {
        self.take_first(waiting, count)?;
        self.publish(rt)?;
        Ok(())
    }
}
