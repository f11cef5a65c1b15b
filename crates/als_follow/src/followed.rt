use als_operate::Fault;

/// What a session leaves.
pub struct Followed<E, I, O> {
    pub engine: E,
    pub reader: I,
    pub writer: O,
    /// The first refusal of a thread, or else that of what follows the session. None: a thread could
    /// not be started, or allocation failed, and no frame was asked for.
    pub ended: Option<Result<(), Fault>>,
}
