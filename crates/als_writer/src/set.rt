use als_record::{KeptImage, Key};
use std::marker::Model;

/// A key and the image that it gets.
#[derive(Clone, Copy)]
pub struct Set {
    pub key: Key,
    pub image: KeptImage,
}

impl Model for Set {
    ghost use Rattle.als_record.specs.Commits.{Write};

    ghost Value = { Write };

    ghost view = { λ s. record { key = s.key; after = s.image } };

    ghost inverse = { λ w. record { key = w.key; image = w.after } };
}
