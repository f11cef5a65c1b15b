use als_record::{KeptImage, Key};

/// An ask that does not hold: its key, and the image that this has now.
#[derive(Clone, Copy)]
pub struct Unmet {
    pub key: Key,
    pub image: KeptImage,
}
