/// The line that begins the input of `als make`.
pub const FIRST_OF_MAKE: [&str; 1] = ["pages P"];

/// The line that begins the input of `als sim`.
pub const FIRST_OF_SIM: [&str; 1] = ["world pages=B log=B frames=B workers=B pending=B"];

/// The lines of records.
pub const RECORD_FORMS: [&str; 8] = [
    "u T P S BEFORE AFTER",
    "c T P S AFTER NEXT",
    "commit T",
    "rollback T",
    "end T",
    "prepare T",
    "ckpt",
    "ckptend",
];

/// The lines of steps, and those that ask for what is there.
pub const STEP_FORMS: [&str; 42] = [
    "feed A B",
    "resync",
    "lend P W",
    "redo W",
    "hand W V",
    "give W",
    "drop W",
    "recall P",
    "flush P",
    "sync-pages",
    "log-write",
    "log-sync",
    "mark-write",
    "ctl-sync",
    "ckpt-begin",
    "ckpt-block",
    "ckpt-publish",
    "publish",
    "ready",
    "adopt SEAL ..",
    "seal",
    "undo",
    "finish",
    "resolve T commit",
    "resolve T rollback",
    "read P S",
    "crash old",
    "crash new",
    "crash PICK ..",
    "fail log K",
    "fail control K",
    "fail pages K",
    "force",
    "drain",
    "takeover",
    "show status",
    "show table",
    "show dirty",
    "show page P",
    "show db",
    "show log A",
    "show epochs",
];
