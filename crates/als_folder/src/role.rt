// Which epoch the primary of a folder writes, as its file says it.
ghost use Rattle.std.specs.Prelude.{◌≡◌, ◌≤◌, ℕ, Some, IfOk, IfSome, string_bytes};
ghost use Rattle.als_folder.specs.Roles.{role_text};
ghost use Rattle.als_folder.specs.declared.role.Role.{Role};

use std::alloc::{AllocError, Global};
use std::string::String;

/// The greatest epoch: so many takeovers fit into a history.
pub const EPOCH_LIMIT: u32 = 32;

/// A folder is a primary's.
#[derive(Clone, Copy, Debug, PartialEq, Eq)]
pub struct Role {
    /// The epoch that it writes.
    pub epoch: u32,
}

impl Role {
    /// The text of its file.
    #[tactic(auto, unfolding(crate::specs::Roles::role_text))]
    pub fn text(self, alloc: Global) -> Result<String, AllocError>
        ensures { IfOk result (λ text. string_bytes text ≡ role_text self.epoch) }
    {
        let text = format!(in alloc; "primary epoch={}\n", self.epoch)?;
        Ok(text)
    }

    /// The role that such a text says, of an epoch up to `EPOCH_LIMIT`. None: it says none.
    pub fn of_text(alloc: Global, text: &[u8]) -> Result<Option<Role>, AllocError>
        // What is read was written so, and what was written is read again.
        ensures found { IfOk result (λ r. IfSome r (λ role. text.now ≡ role_text role.epoch)) }
        ensures again { IfOk result (λ r. (epoch : ℕ) → epoch ≤ 32 → text.now ≡ role_text epoch
            → r ≡ Some (record { epoch = epoch })) }
    {
        let mut epoch = 0;
        while epoch <= EPOCH_LIMIT {
            let role = Role { epoch };
            let spelled = role.text(alloc)?;
            if text == spelled.as_bytes() {
                return Ok(Some(role));
            }
            epoch += 1;
        }
        Ok(None)
    }
}
