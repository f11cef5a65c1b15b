use als_ckpt_codec::Checkpoint;
use als_past::Past;

/// What a region holds whatever a crash leaves, for clauses alone.
#[derive(Drop)]
pub(crate) enum Content {
    /// No checkpoint is known to stand there.
    Unknown,
    /// This one stands there.
    Whole(Past<Checkpoint>),
}
