ghost use Rattle.std.specs.Prelude.{◌≡◌};
ghost use Rattle.als_keys.specs.Pages.{key_at, page_keys};

use als_record::{Key, SLOT_COUNT};

/// The keys of all slots of a page.
pub fn page_keys(page: u32) -> [Key; SLOT_COUNT]
    ensures { result ≡ page_keys page }
{
    [
        at(page, 0),
        at(page, 1),
        at(page, 2),
        at(page, 3),
        at(page, 4),
        at(page, 5),
        at(page, 6),
        at(page, 7),
        at(page, 8),
        at(page, 9),
        at(page, 10),
        at(page, 11),
        at(page, 12),
        at(page, 13),
        at(page, 14),
    ]
}

/// The key of a slot of a page.
fn at(page: u32, slot: u8) -> Key
    ensures { result ≡ key_at page slot }
{
    Key { page, slot }
}
