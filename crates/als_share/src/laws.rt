ghost use Rattle.std.specs.Prelude.{◌≡◌, ℕ, ◌≤◌, ◌+◌, length, false, true, List, Option, Some};
ghost use Rattle.std.specs.Prelude.{Result as AnyResult};
ghost use Rattle.als_lease.specs.Lease.{Leased};
ghost use Rattle.als_record.specs.declared.lsn.Lsn.{Lsn as AnyLsn};
ghost use Rattle.als_record.specs.declared.trans_id.TransId.{TransId as AnyTransId};
ghost use Rattle.als_record.specs.Tail.{tail_of};
ghost use Rattle.als_store.specs.declared.decision.Decision.{Decision as AnyDecision};
ghost use Rattle.als_store.specs.Takeover.{is_primary};
ghost use Rattle.als_store.specs.Warm.{WasWarm};
ghost use Rattle.als_engine.specs.declared.fault.Fault.{Fault as AnyFault};
ghost use Rattle.als_engine.specs.declared.not_given.NotGiven.{NotGiven as AnyNotGiven};
ghost use Rattle.als_engine.specs.declared.step.Step.{Step as AnyStep};
ghost use Rattle.als_engine.specs.declared.step.Step.TheVariants as step;
ghost use Rattle.als_engine.specs.declared.step.Reply.{Reply as AnyReply};
ghost use Rattle.als_engine.specs.declared.step.Reply.TheVariants as reply;
ghost use Rattle.als_engine.specs.Machine.{Machine, Keeps};
ghost use Rattle.als_engine.specs.Telling.{Stands, told_in};
ghost use Rattle.als_share.specs.Reaching.{Makes, MakesLend, MakesGive, Asks, Run};
ghost use Rattle.als_share.specs.Reaching.{Reaches, ReachesFrom};
ghost use Rattle.als_share.specs.Undoing.{undone, resolved, IsSealed, EndsAtSeal, GoesOnFrom};

/// A law: what reaches a machine goes on with each event, each lend and give, and each query.
pub fn reaching_goes_on()
    ensures begins { (m : Machine) → Reaches m m }
    ensures event { (start : Machine) (now : Machine) (event : AnyStep) (reply : AnyReply)
        (new : Machine) → Reaches start now → Makes now event reply new → Reaches start new }
    ensures lend { (start : Machine) (now : Machine) (page : ℕ) (answer : AnyResult Leased AnyFault)
        (new : Machine) → Reaches start now → MakesLend now page answer new → Reaches start new }
    ensures give { (start : Machine) (now : Machine) (lease : Leased)
        (answer : AnyResult (Unit {0}) AnyNotGiven) (new : Machine) → Reaches start now
        → MakesGive now lease answer new → Reaches start new }
    ensures query { (start : Machine) (now : Machine) (new : Machine) → Reaches start now
        → Asks now new → Reaches start new }
    // The same from a machine that was picked.
    ensures picked { (from : Option Machine) (m : Machine) → from ≡ Some m → ReachesFrom from m }
    ensures event_from { (from : Option Machine) (now : Machine) (event : AnyStep)
        (reply : AnyReply) (new : Machine) → ReachesFrom from now → Makes now event reply new
        → ReachesFrom from new }
    ensures lend_from { (from : Option Machine) (now : Machine) (page : ℕ)
        (answer : AnyResult Leased AnyFault) (new : Machine) → ReachesFrom from now
        → MakesLend now page answer new → ReachesFrom from new }
    ensures give_from { (from : Option Machine) (now : Machine) (lease : Leased)
        (answer : AnyResult (Unit {0}) AnyNotGiven) (new : Machine) → ReachesFrom from now
        → MakesGive now lease answer new → ReachesFrom from new }
    ensures query_from { (from : Option Machine) (now : Machine) (new : Machine)
        → ReachesFrom from now → Asks now new → ReachesFrom from new }
    ensures reached { (from : Option Machine) (start : Machine) (now : Machine)
        → from ≡ Some start → ReachesFrom from now → Reaches start now }
{}

/// A law: what each event keeps, all of them together keep. The acknowledged LSN never falls, the
/// log only grows, a takeover goes on, and a commit that readers may know of stays published or
/// acknowledged.
pub fn what_is_reached_is_kept()
    ensures keeps { (start : Machine) (now : Machine) → Stands start → Reaches start now
        → Keeps start now }
    ensures stands { (start : Machine) (now : Machine) → Stands start → Reaches start now
        → Stands now }
    ensures told { (start : Machine) (now : Machine) → Stands start → Reaches start now
        → told_in start ≤ told_in now }
{}

/// A law: without a crash, `undo_one` answers Ok once for each record of the sealed log's tail
/// before a transaction in doubt is decided, where the devices were sound when the engine was made.
pub fn undo_answers_once_a_record()
    // From an acknowledged seal on the log grows by these records and by the decisions alone.
    ensures grows { (start : Machine) (now : Machine) (events : List AnyStep)
        (replies : List AnyReply) → Run start events replies now → Stands start
        → WasWarm start.held → IsSealed start
        → length now.held.log ≡ length start.held.log + undone replies + resolved replies }
    // Once the takeover is done and before the first decision, they are as many as the tail of the
    // sealed log has.
    ensures whole { (start : Machine) (now : Machine) (events : List AnyStep)
        (replies : List AnyReply) → Run start events replies now → Stands start
        → WasWarm start.held → EndsAtSeal start → now.held.recovering ≡ false
        → is_primary now.held ≡ true → resolved replies ≡ 0
        → undone replies ≡ length (tail_of start.held.log) }
    // So many have come when the first transaction in doubt is decided.
    ensures first { (start : Machine) (now : Machine) (events : List AnyStep)
        (replies : List AnyReply) (trans : AnyTransId) (verdict : AnyDecision) (lsn : AnyLsn)
        (new : Machine) → Run start events replies now → Stands start → WasWarm start.held
        → EndsAtSeal start → resolved replies ≡ 0
        → Makes now (step.Resolve trans verdict) (reply.Resolved lsn) new
        → undone replies ≡ length (tail_of start.held.log) }
    // Once the takeover is done the log is the sealed one and its tail; behind them stand decisions
    // and what these left to append, and nothing else.
    ensures decided { (start : Machine) (now : Machine) → Reaches start now → Stands start
        → WasWarm start.held → EndsAtSeal start → now.held.recovering ≡ false
        → is_primary now.held ≡ true → GoesOnFrom start now }
{}
