use als_record::{ImageView, KeptImage, Key};
use als_sample_logs::{Dice, SLOTS};
use als_writer::{Set, Transaction};
use std::alloc::{AllocError, Global};

/// Transactions of a number of sets each, of random keys and of values of 8 bytes.
pub fn roll_all(
    alloc: Global,
    dice: &mut Dice,
    pages: u32,
    sets: u32,
    count: usize,
) -> Result<Vec<Transaction>, AllocError> {
    let mut all = Vec::with_capacity(alloc, count)?;
    for _ in 0..count {
        all.push(roll(alloc, dice, pages, sets)?)?;
    }
    Ok(all)
}

/// One transaction. Its keys lie at one distance from one another.
fn roll(alloc: Global, dice: &mut Dice, pages: u32, sets: u32) -> Result<Transaction, AllocError> {
    let keys = u64::from(pages).saturating_mul(u64::from(SLOTS)).max(1);
    let first = u64::from(dice.roll());
    let step = 1 + u64::from(dice.roll()) % (keys / (u64::from(sets) + 1)).max(1);
    let mut list = Vec::with_capacity(alloc, sets as usize)?;
    for i in 0..sets {
        let at = u64::from(i).saturating_mul(step).saturating_add(first) % keys;
        list.push(Set {
            key: key_at(at),
            image: roll_image(dice),
        })?;
    }
    Ok(Transaction {
        asks: Vec::new(alloc),
        sets: list,
    })
}

/// A key by its place among all keys.
fn key_at(place: u64) -> Key {
    Key {
        page: u32::try_from(place / u64::from(SLOTS)).unwrap_or(0),
        slot: (place % u64::from(SLOTS)) as u8,
    }
}

/// A value of 8 bytes.
fn roll_image(dice: &mut Dice) -> KeptImage {
    let number = (u64::from(dice.roll()) << 32) | u64::from(dice.roll());
    let bytes = number.to_be_bytes();
    KeptImage::of(&ImageView {
        bytes: Some(&bytes),
    })
}
