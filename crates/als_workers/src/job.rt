use als_lease::PageLease;

/// What a worker takes from the queue.
#[derive(Drop)]
pub enum Job {
    /// A lease with changes to redo.
    Work(PageLease),
    /// The worker ends.
    Stop,
}
