/// How the frames stand in their order: first those that were written since the last sync, then the
/// others that are not free, then the free ones.
#[derive(Clone, Copy, Drop)]
pub(crate) struct Zones {
    /// How many frames were written since the last sync.
    pub(crate) written: usize,
    /// How many frames are not free.
    pub(crate) dirty: usize,
}
