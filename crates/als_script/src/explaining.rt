use crate::wanted::Wanted;
use crate::words::Words;
use std::fmt;
use std::fmt::{Formatter, Write};

/// Why a line is bad: the first of its words, counted from 1, that no good line has there, and what
/// a good line has.
#[derive(Clone, Copy)]
pub struct Explanation<'a> {
    pub word: usize,
    /// None: the line ends before it.
    pub found: Option<&'a str>,
    pub wanted: Wanted,
    /// The good line that was looked at, with capitals for what varies; empty where there is none.
    pub form: &'static str,
}

impl<'a> fmt::Display for Explanation<'a> {
    fn fmt<W: Write>(&self, f: &mut Formatter<W>) -> Result<(), fmt::Error> {
        match self.found {
            Some("") => write!(
                f,
                "word {} is empty, since words are parted by one space each; ",
                self.word
            )?,
            Some(word) => write!(f, "word {} is `{word}`; ", self.word)?,
            None => write!(f, "it ends before word {}; ", self.word)?,
        }
        write!(f, "wanted is {}", self.wanted)?;
        if !self.form.is_empty() {
            write!(f, ", as in `{}`", self.form)?;
        }
        Ok(())
    }
}

/// Why a line is none of these forms: by the form that it agrees with for longest. None where it is
/// one of them.
pub fn explain<'a>(line: &'a str, forms: &[&'static str]) -> Option<Explanation<'a>> {
    let mut best = unknown(line);
    for form in forms {
        match compare(line, form) {
            None => return None,
            Some(explanation) => {
                if explanation.word > best.word {
                    best = explanation;
                }
            }
        }
    }
    Some(best)
}

/// No form begins as the line does.
fn unknown(line: &str) -> Explanation<'_> {
    Explanation {
        word: 1,
        found: Words::of(line).next(),
        wanted: Wanted::Command,
        form: "",
    }
}

/// Where a line leaves a form, if it does.
fn compare<'a>(line: &'a str, form: &'static str) -> Option<Explanation<'a>> {
    let mut words = Words::of(line);
    let mut pattern = Words::of(form);
    let mut last = Wanted::End;
    for index in 0..=line.len() {
        let found = words.next();
        let wanted = match pattern.next() {
            None => Wanted::End,
            // The last word may come again, and the line may end.
            Some("..") => {
                pattern = Words::of("..");
                if found.is_none() { Wanted::End } else { last }
            }
            Some(part) => wanted_at(part),
        };
        last = wanted;
        match is_met(found, wanted) {
            Some(true) => return None,
            Some(false) => {
                return Some(Explanation {
                    word: index.saturating_add(1),
                    found,
                    wanted,
                    form,
                });
            }
            None => {}
        }
    }
    None
}

/// Whether a line ends well there, or leaves the form there; None where it goes on.
fn is_met(found: Option<&str>, wanted: Wanted) -> Option<bool> {
    let Some(word) = found else {
        return Some(matches!(wanted, Wanted::End));
    };
    let is_good = match wanted {
        Wanted::Command => true,
        Wanted::Word(name) => word == name,
        Wanted::Number { label, bits } => is_number(word, label, bits),
        Wanted::Image => Words::of(word).image().is_some(),
        Wanted::End => false,
    };
    if is_good { None } else { Some(false) }
}

/// Whether a word is a label and a number of so many bits.
fn is_number(word: &str, label: &str, bits: u32) -> bool {
    let Some(digits) = word.strip_prefix(label) else {
        return false;
    };
    let mut digits = Words::of(digits);
    match bits {
        8 => digits.number::<u8>().is_some(),
        32 => digits.number::<u32>().is_some(),
        _ => digits.number::<u64>().is_some(),
    }
}

/// What a part of a form stands for: a word of small letters for itself, one of capitals for what
/// varies.
fn wanted_at(part: &'static str) -> Wanted {
    match part {
        "P" | "T" => number("", 32),
        "S" | "PICK" => number("", 8),
        "A" | "B" | "K" | "V" | "W" | "NEXT" | "SEAL" => number("", 64),
        "BEFORE" | "AFTER" => Wanted::Image,
        "pages=B" => number("pages=", 64),
        "log=B" => number("log=", 64),
        "frames=B" => number("frames=", 64),
        "workers=B" => number("workers=", 64),
        "pending=B" => number("pending=", 64),
        word => Wanted::Word(word),
    }
}

fn number(label: &'static str, bits: u32) -> Wanted {
    Wanted::Number { label, bits }
}
