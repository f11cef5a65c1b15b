use als_record::{KeptImage, Key};
use std::marker::Model;

/// A key and the image that it gets, in 40 bytes.
#[derive(Drop)]
pub struct Write {
    pub key: Key,
    pub after: KeptImage,
}

impl Model for Write {
    ghost use Rattle.als_record.specs.Commits.{Write};

    ghost Value = { Write };

    ghost view = { λ w. record { key = w.key; after = w.after } };
}
