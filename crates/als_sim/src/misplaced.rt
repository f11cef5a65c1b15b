ghost use Rattle.std.specs.Prelude.{◌≢◌, ◌+◌, IfSome};

use als_engine::{State, Status};
use als_script::StepLine;

/// A feed that was refused, and did not begin where the bytes of the standby end.
#[derive(Clone, Copy, Debug, PartialEq, Eq)]
pub struct Misplaced {
    /// The number of its line, counted from 1.
    pub line: u64,
    /// The LSN at which it began.
    pub from: u64,
    /// The LSN at which the log ended.
    pub end: u64,
    /// The bytes that the standby had of a partial record behind that.
    pub partial: u64,
}

impl Misplaced {
    /// The step of a line, where it is such a feed: a standby that followed refuses from then on.
    /// `before` and `after` are what the standby tells on both sides of it.
    pub(crate) fn of(
        number: u64,
        line: &StepLine,
        before: Option<Status>,
        after: Option<Status>,
    ) -> Option<Misplaced>
        ensures elsewhere { IfSome result (λ m. m.from ≢ m.end + m.partial) }
    {
        let StepLine::Feed { from, .. } = line else {
            return None;
        };
        let from = *from;
        let before = before?;
        let (end, partial) = (before.end.0, before.partial as u64);
        let goes_on = end <= from && from - end == partial;
        if goes_on || before.state != State::Following || !keeps_fault(after?.state) {
            return None;
        }
        Some(Misplaced {
            line: number,
            from,
            end,
            partial,
        })
    }
}

/// Whether a standby in this state refuses all that is fed, for a fault that it keeps.
fn keeps_fault(state: State) -> bool {
    match state {
        State::Refusing { .. } => true,
        _ => false,
    }
}
