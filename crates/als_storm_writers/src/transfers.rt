use crate::failing::PAGES;
use crate::stop::Stop;
use crate::values::Values;
use als_record::{ImageView, KeptImage, Key, SLOT_COUNT, TransId};
use als_sample_logs::Dice;
use als_writer::{Ask, Set, Transaction};
use std::alloc::Global;

/// The most sets of a transaction. Each is of another page.
const SETS: u32 = 4;

/// A transaction, and what becomes of it.
#[derive(Drop)]
pub struct Rolled {
    pub transaction: Transaction,
    /// Whether what it asks holds.
    pub holds: bool,
    /// The transaction in doubt that holds the first of its keys that is held.
    pub holder: Option<TransId>,
}

/// A transaction of 1 to 4 sets, which asks for what the first of its keys has. One in six asks for
/// something else.
pub fn roll(alloc: Global, dice: &mut Dice, values: &Values) -> Result<Rolled, Stop> {
    let page = dice.below(PAGES);
    let mut sets = Vec::new(alloc);
    for i in 0..1 + dice.below(SETS) {
        let key = Key {
            page: page.saturating_add(i) % PAGES,
            slot: dice.below(SLOT_COUNT as u32) as u8,
        };
        put(
            &mut sets,
            Set {
                key,
                image: roll_image(dice),
            },
        )?;
    }
    let mut asks = Vec::new(alloc);
    let holds = dice.below(6) != 0;
    if let Some(first) = sets.first() {
        put(&mut asks, ask(values, first.key, holds))?;
    }
    let holder = values.first_holder(&sets);
    Ok(Rolled {
        transaction: Transaction { asks, sets },
        holds,
        holder,
    })
}

/// An ask for what a key has, or for what it has not.
fn ask(values: &Values, key: Key, holds: bool) -> Ask {
    let now = values.get(key);
    let image = if holds {
        now
    } else if now.first() == 0 {
        KeptImage::of(&ImageView { bytes: Some(&[1]) })
    } else {
        KeptImage::absent()
    };
    Ask::Is { key, image }
}

/// No value, or one of up to 31 random bytes.
fn roll_image(dice: &mut Dice) -> KeptImage {
    if dice.below(6) == 0 {
        return KeptImage::absent();
    }
    let mut bytes = [0; 31];
    for byte in bytes.iter_mut() {
        *byte = dice.below(256) as u8;
    }
    let len = dice.below(32) as usize;
    KeptImage::of(&ImageView {
        bytes: bytes.get(..len),
    })
}

fn put<T: Drop>(list: &mut Vec<T>, item: T) -> Result<(), Stop> {
    match list.push(item) {
        Ok(()) => Ok(()),
        Err(_) => Err(Stop::Memory),
    }
}
