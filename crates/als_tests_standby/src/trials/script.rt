use super::standby::Act;
use als_engine::Step;

/// How many steps the script has.
pub const STEPS: usize = 34;

/// After so many steps the first part of the text is acknowledged.
pub const FORCED: usize = 5;

/// After so many steps the text is acknowledged, and a checkpoint at 116 is published.
pub const CHECKPOINTED: usize = 18;

/// After so many steps the log is sealed.
pub const SEALED: usize = 22;

/// A text is fed, forced and redone, a checkpoint is taken, the rest is fed, and the standby takes
/// over.
pub fn script(text: &[u8; 278]) -> [Act; STEPS] {
    [
        Act::Step(Step::Feed(&text[..100])),
        Act::Step(Step::LogWrite),
        Act::Step(Step::LogSync),
        Act::Step(Step::MarkWrite),
        Act::Step(Step::ControlSync),
        Act::Redo(0),
        Act::Step(Step::Flush(0)),
        Act::Step(Step::CkptBegin),
        Act::Step(Step::CkptBlock),
        Act::Step(Step::SyncPages),
        Act::Step(Step::ControlSync),
        Act::Step(Step::Feed(&text[100..137])),
        Act::Step(Step::CkptPublish),
        Act::Step(Step::LogWrite),
        Act::Step(Step::ControlSync),
        Act::Step(Step::LogSync),
        Act::Step(Step::MarkWrite),
        Act::Step(Step::ControlSync),
        Act::Redo(0),
        Act::Step(Step::Flush(0)),
        Act::Step(Step::Seal),
        Act::Step(Step::ControlSync),
        Act::Step(Step::UndoOne),
        Act::Step(Step::UndoOne),
        Act::Step(Step::LogWrite),
        Act::Step(Step::UndoOne),
        Act::Step(Step::UndoOne),
        Act::Step(Step::LogWrite),
        Act::Step(Step::LogSync),
        Act::Step(Step::MarkWrite),
        Act::Step(Step::ControlSync),
        Act::Redo(0),
        Act::Step(Step::Finish),
        Act::Step(Step::ControlSync),
    ]
}
