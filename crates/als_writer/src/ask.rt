use als_record::{KeptImage, Key, Lsn};

/// What a transaction asks of the log that it is written to.
#[derive(Clone, Copy)]
pub enum Ask {
    /// The key has this image.
    Is { key: Key, image: KeptImage },
    /// This LSN is below the log's end, and no commit above it wrote the key.
    Unchanged { key: Key, since: Lsn },
}
