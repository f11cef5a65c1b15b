ghost use Rattle.std.specs.Prelude.{◌≡◌};
ghost use Rattle.als_report.specs.States.{number_of_state, state_of_number, name_of_state, role_of_state};
ghost use Rattle.als_report.specs.Health.{is_sent_to, is_committing, is_at_work, takes_commits};

/// What a node is doing.
#[derive(Clone, Copy, Debug, PartialEq, Eq)]
pub enum State {
    /// It redoes the log that its folder has.
    Recovering,
    /// No primary sends to it.
    Waiting,
    /// It receives the primary's log.
    Following,
    /// A record was refused, and so is everything after it.
    Refusing,
    /// The log was sealed: what is not committed is being undone.
    Sealed,
    /// The takeover has finished.
    Primary,
    /// It commits for clients.
    Committing,
    /// It commits for clients, and a commit waits until enough followers have acknowledged it.
    Unconfirmed,
    /// A device failed, or the node is ending.
    Stopped,
}

impl State {
    /// The number of the state, as a cell stores it.
    pub(crate) fn number(self) -> u64
        ensures { result ≡ number_of_state self }
    {
        match self {
            State::Recovering => 0,
            State::Waiting => 1,
            State::Following => 2,
            State::Refusing => 3,
            State::Sealed => 4,
            State::Primary => 5,
            State::Stopped => 6,
            State::Committing => 7,
            State::Unconfirmed => 8,
        }
    }

    /// The state with a number. Stopped if no state has it.
    pub(crate) fn of(number: u64) -> State
        ensures { result ≡ state_of_number number }
    {
        match number {
            0 => State::Recovering,
            1 => State::Waiting,
            2 => State::Following,
            3 => State::Refusing,
            4 => State::Sealed,
            5 => State::Primary,
            7 => State::Committing,
            8 => State::Unconfirmed,
            _ => State::Stopped,
        }
    }

    /// Whether a primary sends to it.
    pub fn is_sent_to(self) -> bool
        ensures { result ≡ is_sent_to self }
    {
        matches!(self, State::Following)
    }

    /// Whether the node does its work: a primary sends to it, or it commits for clients.
    pub fn is_at_work(self) -> bool
        ensures { result ≡ is_at_work self }
    {
        self.is_sent_to() || self.is_committing()
    }

    /// Whether it commits for clients, and as many followers as have to confirm a commit do so now.
    pub fn is_committing(self) -> bool
        ensures { result ≡ is_committing self }
    {
        matches!(self, State::Committing)
    }

    /// Whether it takes transactions of clients, confirmed or not.
    pub fn takes_commits(self) -> bool
        ensures { result ≡ takes_commits self }
    {
        matches!(self, State::Committing | State::Unconfirmed)
    }

    /// The role of a node in this state.
    pub fn role(self) -> &'static str
        ensures { result.now ≡ role_of_state self }
    {
        match self {
            State::Sealed | State::Primary | State::Committing | State::Unconfirmed => "primary",
            State::Recovering
            | State::Waiting
            | State::Following
            | State::Refusing
            | State::Stopped => "standby",
        }
    }

    /// The name of the state, as texts have it.
    pub fn name(self) -> &'static str
        ensures { result.now ≡ name_of_state self }
    {
        match self {
            State::Recovering => "recovering",
            State::Waiting => "waiting",
            State::Following => "following",
            State::Refusing => "refusing",
            State::Sealed => "sealed",
            State::Primary => "primary",
            State::Committing => "committing",
            State::Unconfirmed => "unconfirmed",
            State::Stopped => "stopped",
        }
    }
}
