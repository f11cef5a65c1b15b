use crate::trouble::Trouble;
use als_sample_logs::Dice;

/// The most bytes that a frame may have.
const LIMIT: u32 = 65_536;

/// The bytes of a history, which is mostly that of no takeover, and of random frames: true ones from
/// about a position on, others, and then bytes that are flipped or cut off.
pub fn roll_stream(
    dice: &mut Dice,
    text: &[u8],
    end: u64,
    stream: &mut Vec<u8>,
) -> Result<(), Trouble> {
    let mut position = end;
    put_history(dice, stream)?;
    if dice.below(100) == 0 {
        put_head(stream, 0, position, LIMIT)?;
        put_noise(dice, LIMIT, stream)?;
    }
    for _ in 0..1 + dice.below(6) {
        match dice.below(10) {
            0..=5 => position = put_true(dice, text, position, stream)?,
            6 => put_any(dice, stream)?,
            7 => put_long(dice, stream)?,
            8 => put_noise(dice, 40, stream)?,
            _ => put_head(stream, 0, position, 0)?,
        }
    }
    if dice.below(4) == 0 {
        flip(dice, stream);
    }
    if dice.below(2) == 0 {
        let left = dice.below(length_of(stream.as_slice()).max(1));
        stream.truncate(left as usize);
    }
    Ok(())
}

/// A history: in one of ten streams one with seals.
fn put_history(dice: &mut Dice, stream: &mut Vec<u8>) -> Result<(), Trouble> {
    let epoch = if dice.below(10) == 0 {
        dice.below(36)
    } else {
        0
    };
    stream.push(b'E')?;
    stream.extend_from_slice(&epoch.to_be_bytes())?;
    let mut seal: u64 = 0;
    for _ in 0..epoch {
        seal = seal.saturating_add(u64::from(dice.below(6_000)));
        stream.extend_from_slice(&seal.to_be_bytes())?;
    }
    Ok(())
}

/// The head of a Data frame.
fn put_head(stream: &mut Vec<u8>, epoch: u32, offset: u64, len: u32) -> Result<(), Trouble> {
    stream.push(b'F')?;
    stream.extend_from_slice(&epoch.to_be_bytes())?;
    stream.extend_from_slice(&offset.to_be_bytes())?;
    stream.extend_from_slice(&len.to_be_bytes())?;
    Ok(())
}

/// A true frame from near a position on: the position after it.
fn put_true(
    dice: &mut Dice,
    text: &[u8],
    position: u64,
    stream: &mut Vec<u8>,
) -> Result<u64, Trouble> {
    let back = if dice.below(2) == 0 {
        dice.below(30)
    } else {
        0
    };
    let from = position.saturating_sub(u64::from(back)).max(16);
    let to = from.saturating_add(u64::from(dice.below(600)));
    let bytes = text.get(from as usize..to as usize).unwrap_or(&[]);
    put_head(stream, 0, from, length_of(bytes))?;
    stream.extend_from_slice(bytes)?;
    Ok(position.max(from.saturating_add(bytes.len() as u64)))
}

/// A Data frame of any offset and length, in one of three cases of any epoch, with some bytes.
fn put_any(dice: &mut Dice, stream: &mut Vec<u8>) -> Result<(), Trouble> {
    let len = dice.below(300);
    let offset = roll_offset(dice);
    let epoch = if dice.below(3) == 0 {
        dice.below(36)
    } else {
        0
    };
    put_head(stream, epoch, offset, len)?;
    put_noise(dice, len, stream)
}

/// The head of a Data frame with too many bytes.
fn put_long(dice: &mut Dice, stream: &mut Vec<u8>) -> Result<(), Trouble> {
    let len = LIMIT + 1 + dice.below(1_000);
    let offset = roll_offset(dice);
    put_head(stream, 0, offset, len)
}

/// Some offset, small or great.
fn roll_offset(dice: &mut Dice) -> u64 {
    match dice.below(3) {
        0 => u64::from(dice.below(6_000)),
        1 => u64::MAX - u64::from(dice.below(100_000)),
        _ => {
            let high = u64::from(dice.roll());
            (high << 32) | u64::from(dice.roll())
        }
    }
}

fn put_noise(dice: &mut Dice, len: u32, stream: &mut Vec<u8>) -> Result<(), Trouble> {
    for _ in 0..len {
        stream.push(dice.below(256) as u8)?;
    }
    Ok(())
}

/// Flips a bit of one byte.
fn flip(dice: &mut Dice, stream: &mut Vec<u8>) {
    let at = dice.below(length_of(stream.as_slice()).max(1)) as usize;
    let bit = dice.below(8);
    if let Some(byte) = stream.as_mut_slice().get_mut(at) {
        *byte ^= 1 << bit;
    }
}

/// How many bytes these are, which are fewer than 2^32.
fn length_of(bytes: &[u8]) -> u32 {
    u32::try_from(bytes.len()).unwrap_or(u32::MAX)
}
