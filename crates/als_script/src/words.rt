ghost use Rattle.std.specs.Prelude.{◌<◌, IfSome};

use als_text::RawImage;
use arrayvec::ArrayVec;
use std::str::FromStr;

/// The words of a line that are not read yet, parted by one space each.
#[derive(Clone, Copy)]
pub struct Words<'a> {
    /// None: all are read.
    rest: Option<&'a str>,
}

impl<'a> Words<'a> {
    /// The words of a line.
    pub fn of(line: &'a str) -> Words<'a> {
        Words { rest: Some(line) }
    }

    /// The next word, which may be empty: no word of the language is.
    pub fn next(&mut self) -> Option<&'a str> {
        let rest = self.rest?;
        match rest.split_once(' ') {
            Some((word, after)) => {
                self.rest = Some(after);
                Some(word)
            }
            None => {
                self.rest = None;
                Some(rest)
            }
        }
    }

    /// A decimal number that fits its type. A sign is none of its digits.
    pub fn number<T: FromStr>(&mut self) -> Option<T>
    where
        T::Err: Drop,
    {
        decimal(self.next()?)
    }

    /// A word of the label and a number, as `prev=16`.
    pub fn labelled<T: FromStr>(&mut self, label: &str) -> Option<T>
    where
        T::Err: Drop,
    {
        decimal(self.next()?.strip_prefix(label)?)
    }

    /// An image: a value in lower case hexadecimal, `.` for the empty value, `-` for absent.
    pub fn image(&mut self) -> Option<RawImage> {
        match self.next()? {
            "-" => Some(None),
            "." => Some(Some(ArrayVec::new())),
            digits => Some(Some(value(digits.as_bytes())?)),
        }
    }

    /// How many words are left.
    pub fn count(&self) -> usize {
        match self.rest {
            Some(rest) => rest.as_bytes().split(|byte| *byte == b' ').count(),
            None => 0,
        }
    }

    /// Whether all words are read.
    pub fn is_at_end(&self) -> bool {
        self.rest.is_none()
    }

    /// What the line says, if all its words are read.
    pub fn ending<T: Drop>(self, line: T) -> Option<T> {
        if self.is_at_end() { Some(line) } else { None }
    }
}

fn decimal<T: FromStr>(digits: &str) -> Option<T>
where
    T::Err: Drop,
{
    if digits.bytes().all(|digit| digit.is_ascii_digit()) {
        digits.parse().ok()
    } else {
        None
    }
}

/// The bytes of hexadecimal digits: one byte at least, and 254 at most.
fn value(digits: &[u8]) -> Option<ArrayVec<u8, 254>> {
    if digits.is_empty() || digits.len() % 2 != 0 {
        return None;
    }
    let mut value = ArrayVec::new();
    for pair in digits.chunks_exact(2) {
        let [high, low] = pair else {
            return None;
        };
        value.try_push(nibble(*high)? * 16 + nibble(*low)?).ok()?;
    }
    Some(value)
}

/// The number of a lower case hexadecimal digit.
fn nibble(digit: u8) -> Option<u8>
    ensures { IfSome result (λ n. n < 16) }
{
    match digit {
        b'0'..=b'9' => Some(digit - b'0'),
        b'a'..=b'f' => Some(digit - b'a' + 10),
        _ => None,
    }
}
