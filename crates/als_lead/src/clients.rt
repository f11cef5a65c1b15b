ghost use Rattle.std.specs.Prelude.{◌≡◌, ◌++◌, ◌∷◌, [], List, option_to_list, IfOk, OnErr};
ghost use Rattle.als_lead.specs.declared.answer.Answer.{Answer as AnyAnswer};
ghost use Rattle.als_lead.specs.declared.asked.Asked.{Asked as AnyAsked};
ghost use Rattle.als_lead.specs.declared.told.Told.{Told as AnyTold};
ghost use Rattle.als_lead.specs.Answers.{asked_of};

use crate::answer::Answer;
use crate::asked::Asked;
use als_operate::Fault;

/// What the leader found when it woke.
#[derive(Clone, Copy, Debug, PartialEq, Eq)]
pub enum Waited {
    /// Something is asked for.
    Asks,
    /// Nothing was asked for within the time.
    Idle,
    /// Nothing will be asked for any more.
    Closed,
}

/// Asks the leader for transactions and decisions, and receives its answers.
pub trait Clients {
    /// What was handed out, in order.
    ghost taken: { Self → List AnyAsked };

    /// What was answered, with the answers, in order.
    ghost told: { Self → List AnyTold };

    /// When an answer may be told of what was asked for.
    ghost may_tell: { AnyAsked → AnyAnswer → Type 0 };

    /// Waits until something is asked for. It may block.
    fn wait(&mut self) -> Result<Waited, Fault>
        ensures taken { taken self.new ≡ taken self.old }
        ensures told { told self.new ≡ told self.old };

    /// Takes what is asked for next. None: nothing is asked for now. It never blocks.
    fn next(&mut self) -> Result<Option<Asked>, Fault>
        ensures taken { IfOk result (λ next. taken self.new
            ≡ taken self.old ++ option_to_list next) }
        ensures none { OnErr result (taken self.new ≡ taken self.old) }
        ensures told { told self.new ≡ told self.old };

    /// Receives the answer to what was handed out first of all that has none yet.
    fn tell(&mut self, asked: Asked, answer: Answer) -> Result<(), Fault>
        requires may { may_tell asked answer }
        requires next { (rest : List AnyAsked) × (taken self.old ≡ asked_of (told self.old)
            ++ asked ∷ rest) }
        ensures taken { taken self.new ≡ taken self.old }
        ensures told { told self.new ≡ told self.old ++ record { asked = asked; answer = answer }
            ∷ [] };

    /// All of a group was answered.
    fn end_group(&mut self) -> Result<(), Fault>
        ensures taken { taken self.new ≡ taken self.old }
        ensures told { told self.new ≡ told self.old };
}
