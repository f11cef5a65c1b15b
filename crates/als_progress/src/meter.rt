ghost use Rattle.std.specs.Prelude.{◌≡◌, None, IfSome};
ghost use Rattle.als_progress.specs.Lines.{percent_of, rate_of, IsDue, WasSaid};

use crate::work::Work;

/// A line is said once work has gone on for so many milliseconds, and then after as many again.
const BETWEEN: u64 = 1_000;

/// What a line says of a work.
#[derive(Clone, Copy, Debug, PartialEq, Eq)]
pub struct Line {
    /// How many hundredths of it are done.
    pub percent: u64,
    /// How many bytes of it are done a second.
    pub rate: u64,
}

/// A work that goes on.
#[derive(Clone, Copy, Debug)]
pub struct Stretch {
    work: Work,
    /// How many bytes of it were done where it was first told.
    from: u64,
    /// When that was, in milliseconds.
    begun: u64,
    /// When a line was said last, of it or of a work before it; before the first line, when the first
    /// work was begun.
    said: u64,
}

/// Says when a line is due.
#[derive(Clone, Copy, Debug)]
pub struct Meter {
    stretch: Option<Stretch>,
}

/// How many hundredths of a whole are done.
#[tactic(auto, unfolding(crate::specs::Lines::percent_of))]
pub fn percent(done: u64, whole: u64) -> u64
    ensures { result ≡ percent_of done whole }
{
    let part = u128::from(done) * 100 / u128::from(whole.max(1));
    part.min(100) as u64
}

/// How many are done a second, where so many are done in so many milliseconds.
#[tactic(auto, unfolding(crate::specs::Lines::rate_of))]
pub fn rate(done: u64, millis: u64) -> u64
    ensures { result ≡ rate_of done millis }
{
    let each = u128::from(done) * 1_000 / u128::from(millis.max(1));
    each.min(u128::from(u64::MAX)) as u64
}

impl Meter {
    /// Nothing is done yet.
    pub fn new() -> Meter
        ensures { result.stretch ≡ None }
    {
        Meter { stretch: None }
    }

    /// A work begins, where a line was said last, or none was, at this time.
    fn begin(&mut self, work: Work, from: u64, begun: u64, said: u64) {
        self.stretch = Some(Stretch {
            work,
            from,
            begun,
            said,
        });
    }

    /// Takes how much of a work is done at a time, in milliseconds, and answers the line that is due.
    pub fn takes(&mut self, work: Work, done: u64, whole: u64, now: u64) -> Option<Line>
        ensures due { IfSome result (IsDue self.old.stretch done whole now) }
        ensures said { IfSome result (λ _. WasSaid self.new.stretch now) }
    {
        let stretch = self.stretch;
        match stretch {
            Some(stretch) if stretch.work == work && stretch.from <= done => {
                if now.saturating_sub(stretch.said) < BETWEEN {
                    return None;
                }
                self.stretch = Some(Stretch {
                    said: now,
                    ..stretch
                });
                Some(Line {
                    percent: percent(done, whole),
                    rate: rate(done - stretch.from, now.saturating_sub(stretch.begun)),
                })
            }
            Some(before) => {
                self.begin(work, done, now, before.said);
                None
            }
            None => {
                self.begin(work, done, now, now);
                None
            }
        }
    }
}
