ghost use Rattle.std.specs.Prelude.{◌≡◌, true, false, IfSome, IfNone};

use als_epochs::History;

/// The history that a standby adopted last.
#[derive(Clone, Copy, Debug)]
pub struct Adopted {
    pub history: History,
    /// The number of the adoption: each one has another number than the one before it.
    pub number: u64,
    /// No crash takes the adoption back.
    pub is_durable: bool,
}

impl Adopted {
    /// The history with which a standby was opened.
    pub fn at_opening(history: History) -> Adopted
        ensures { result ≡ record { history = history; number = 0; is_durable = true } }
    {
        Adopted {
            history,
            number: 0,
            is_durable: true,
        }
    }

    /// Another history was adopted after this one.
    pub fn turned(self, history: History) -> Adopted
        ensures history { result.history ≡ history }
        // What was opened under the old number is not of this history.
        ensures number { result.number ≡ self.number → ⊥ }
        ensures durable { result.is_durable ≡ false }
    {
        let number = if self.number == u64::MAX {
            0
        } else {
            self.number + 1
        };
        Adopted {
            history,
            number,
            is_durable: false,
        }
    }

    /// The control block was synced.
    pub fn settled(self) -> Adopted
        ensures { result ≡ record self { is_durable = true } }
    {
        Adopted {
            is_durable: true,
            ..self
        }
    }

    /// This adoption, where it is durable.
    pub fn durable(self) -> Option<Adopted>
        ensures found { IfSome result (λ adopted. adopted ≡ self) }
        ensures durable { IfSome result (λ adopted. adopted.is_durable ≡ true) }
        ensures none { IfNone result (self.is_durable ≡ false) }
    {
        if self.is_durable { Some(self) } else { None }
    }
}
