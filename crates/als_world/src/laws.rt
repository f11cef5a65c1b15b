// Laws of the definitions.
ghost use Rattle.std.specs.Borrow.{Bor};
ghost use Rattle.std.specs.Prelude.{◌≡◌, ℕ, ◌<◌, List, Option};
ghost use Rattle.als_ckpt.specs.Control.{phase_byte};
ghost use Rattle.als_record.specs.declared.record.Record.{Record as AnyRecord};
ghost use Rattle.als_lease.specs.Lease.{Leased};
ghost use Rattle.als_reopen.specs.Node.{Node};
ghost use Rattle.als_engine.specs.declared.config.Config.{Config as AnyConfig};
ghost use Rattle.als_engine.specs.Machine.{Machine};
ghost use Rattle.als_engine.specs.Restarts.{IsMadeWith};
ghost use Rattle.als_ship.specs.Follows.{Crashes};
ghost use Rattle.als_world.specs.declared.step.WorldStep.{WorldStep as AnyStep};
ghost use Rattle.als_world.specs.declared.step.WorldStep.TheVariants as step;
ghost use Rattle.als_world.specs.declared.step.WorldReply.{WorldReply as AnyReply};
ghost use Rattle.als_world.specs.Runs.{Steps};
ghost use Rattle.als_world.specs.Standing.{Standing, Up, Down, Keeps, IsTrue, IsSealedAt, control_of};

/// One takeover has one sealed log: whatever steps, crashes and restarts lie between two standings
/// past Following, their logs at the seal are the same list of records.
pub fn one_sealed_log()
    ensures one { (old new : Standing) (before after : List AnyRecord) → Keeps old new
        → IsSealedAt old before → IsSealedAt new after → after ≡ before }
    // Each standing past Following has one.
    ensures there { (s : Standing) → IsTrue s → 1 < phase_byte (control_of s).phase
        → (sealed : List AnyRecord) × IsSealedAt s sealed }
{}

/// A crash and the restart after it are a crash as the law of the wire has it: over every schedule of
/// true frames, with such crashes between, a standby holds a front of the text of its epoch.
pub fn a_restart_is_a_crash_on_the_wire()
    // The standby begins again at once,
    ensures at_once { (config : AnyConfig) (old new : Machine)
        (slots after : List (Option Leased)) (picks : Bor (List ℕ)) (answer : AnyReply)
        → IsMadeWith config old
        → Steps config (Up old slots) (step.Crash picks) answer (Up new after) → Crashes old new }
    // or later, from the devices that the crash left.
    ensures later { (config : AnyConfig) (old new : Machine) (slots after : List (Option Leased))
        (picks again : Bor (List ℕ)) (answer restarted : AnyReply) (n : Node) (workers : ℕ)
        → IsMadeWith config old
        → Steps config (Up old slots) (step.Crash picks) answer (Down n workers)
        → Steps config (Down n workers) (step.Crash again) restarted (Up new after)
        → Crashes old new }
    // As long as the world is down they hold the same.
    ensures still { (config : AnyConfig) (n left : Node) (workers others : ℕ) (event : AnyStep)
        (answer : AnyReply) → Steps config (Down n workers) event answer (Down left others)
        → left ≡ n }
{}
