use als_share::{Acknowledger, Ledgers, Share};

/// What the follower has to itself: its share of the engine, what acknowledges for the session, and
/// both ends of its stream.
#[derive(Drop)]
pub(crate) struct Session<L: Ledgers, I, O> {
    pub share: Share<L>,
    pub acknowledger: Acknowledger<L>,
    pub reader: I,
    pub writer: O,
}
