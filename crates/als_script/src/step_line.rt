use crate::words::Words;
use als_epochs::History;
use als_record::Lsn;

/// A line of one step.
#[derive(Clone, Copy)]
pub enum StepLine {
    /// `feed A B`: bytes `from` to `to - 1` of the log text.
    Feed { from: u64, to: u64 },
    Resync,
    /// `recall P`
    Recall { page: u32 },
    /// `flush P`
    Flush { page: u32 },
    /// `sync-pages`
    SyncPages,
    LogWrite,
    LogSync,
    MarkWrite,
    /// `ctl-sync`
    ControlSync,
    /// `ckpt-begin`
    CkptBegin,
    /// `ckpt-block`
    CkptBlock,
    /// `ckpt-publish`
    CkptPublish,
    /// `publish`
    PublishView,
    Ready,
    /// `adopt SEAL ..`: the history of another node.
    Adopt(History),
    Seal,
    /// `undo`
    UndoOne,
    Finish,
    /// `resolve T commit` or `resolve T rollback`
    Resolve { trans: u32, is_commit: bool },
}

impl StepLine {
    /// The step of a line; None where it is no step line.
    pub fn parse(line: &str) -> Option<StepLine> {
        let mut words = Words::of(line);
        let step = match words.next()? {
            "feed" => StepLine::Feed {
                from: words.number()?,
                to: words.number()?,
            },
            "recall" => StepLine::Recall {
                page: words.number()?,
            },
            "flush" => StepLine::Flush {
                page: words.number()?,
            },
            "adopt" => StepLine::Adopt(history(&mut words)?),
            "resolve" => StepLine::Resolve {
                trans: words.number()?,
                is_commit: is_commit(words.next()?)?,
            },
            word => StepLine::named(word)?,
        };
        words.ending(step)
    }

    /// The step that is its name alone.
    fn named(word: &str) -> Option<StepLine> {
        match word {
            "resync" => Some(StepLine::Resync),
            "sync-pages" => Some(StepLine::SyncPages),
            "log-write" => Some(StepLine::LogWrite),
            "log-sync" => Some(StepLine::LogSync),
            "mark-write" => Some(StepLine::MarkWrite),
            "ctl-sync" => Some(StepLine::ControlSync),
            "ckpt-begin" => Some(StepLine::CkptBegin),
            "ckpt-block" => Some(StepLine::CkptBlock),
            "ckpt-publish" => Some(StepLine::CkptPublish),
            "publish" => Some(StepLine::PublishView),
            "ready" => Some(StepLine::Ready),
            "seal" => Some(StepLine::Seal),
            "undo" => Some(StepLine::UndoOne),
            "finish" => Some(StepLine::Finish),
            _ => None,
        }
    }
}

/// The history of the seals that are left, one at least; None where they are more than 32, or one is
/// below the one before it.
fn history(words: &mut Words) -> Option<History> {
    let mut history = History::empty();
    for _ in 0..words.count() {
        let seal = Lsn(words.number()?);
        if !history.takes(seal) {
            return None;
        }
        history.push(seal);
    }
    if history.epoch() == 0 {
        return None;
    }
    Some(history)
}

/// Whether a word decides for a commit; None where it is no decision.
fn is_commit(word: &str) -> Option<bool> {
    match word {
        "commit" => Some(true),
        "rollback" => Some(false),
        _ => None,
    }
}
