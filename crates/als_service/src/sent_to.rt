use als_followers::Pulse;
use als_report::{Reports, Watch};
use std::time::Clock;

/// The pulse of a standby's own followers, by its board: their sessions beat while its own primary sends.
#[derive(Drop)]
pub(crate) struct SentTo<C: Clock> {
    watch: Watch<C>,
}

impl<C: Clock> SentTo<C> {
    /// The pulse by this board.
    pub fn new(watch: Watch<C>) -> SentTo<C> {
        SentTo { watch }
    }
}

impl<C: Clock> Pulse for SentTo<C> {
    fn beats(&self) -> bool {
        self.watch.report().state.is_sent_to()
    }
}
