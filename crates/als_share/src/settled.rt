/// An engine that nobody shares any more.
pub struct Settled<E> {
    pub engine: E,
    /// Whether an event was made, a refused one too, or a query that may read a device.
    pub touched: bool,
}
