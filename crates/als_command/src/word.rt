use clap::{Arg, ArgAction, value_parser};
use std::alloc::Global;

/// A word of a command line.
#[derive(Clone, Copy)]
pub(crate) enum Word {
    /// `--name`, which is given or not.
    Flag {
        name: &'static str,
        help: &'static str,
    },
    /// `VALUE`, which has to be given.
    Place {
        name: &'static str,
        value: &'static str,
        help: &'static str,
    },
    /// `VALUE`, which may be given.
    FreePlace {
        name: &'static str,
        value: &'static str,
        help: &'static str,
    },
    /// `VALUE`, a page's number, which has to be given.
    PagePlace {
        name: &'static str,
        value: &'static str,
        help: &'static str,
    },
    /// `VALUE`, a slot's number, which has to be given.
    SlotPlace {
        name: &'static str,
        value: &'static str,
        help: &'static str,
    },
    /// `--name VALUE`, a text that has to be given.
    Text {
        name: &'static str,
        value: &'static str,
        help: &'static str,
    },
    /// `--name VALUE`, a text that may be given.
    Free {
        name: &'static str,
        value: &'static str,
        help: &'static str,
    },
    /// `--name VALUE`, a text that may be given, and more than once.
    Several {
        name: &'static str,
        value: &'static str,
        help: &'static str,
    },
    /// `--name VALUE`, a number of 32 bits.
    Short {
        name: &'static str,
        value: &'static str,
        help: &'static str,
        is_wanted: bool,
    },
    /// `--name VALUE`, a number of 64 bits.
    Long {
        name: &'static str,
        value: &'static str,
        help: &'static str,
        is_wanted: bool,
    },
}

impl Word {
    /// The word as the parser takes it.
    pub(crate) fn arg<'a>(self, alloc: Global) -> Arg<'a> {
        match self {
            Word::Flag { name, help } => flag(alloc, name, help),
            Word::Place { name, value, help } => place(alloc, name, value, help),
            Word::FreePlace { name, value, help } => {
                place(alloc, name, value, help).required(false)
            }
            Word::PagePlace { name, value, help } => {
                place(alloc, name, value, help).value_parser(value_parser!(u32))
            }
            Word::SlotPlace { name, value, help } => {
                place(alloc, name, value, help).value_parser(value_parser!(u8))
            }
            Word::Text { name, value, help } => named(alloc, name, value, help).required(true),
            Word::Free { name, value, help } => named(alloc, name, value, help),
            Word::Several { name, value, help } => {
                named(alloc, name, value, help).action(ArgAction::Append)
            }
            Word::Short {
                name,
                value,
                help,
                is_wanted,
            } => short(alloc, name, value, help).required(is_wanted),
            Word::Long {
                name,
                value,
                help,
                is_wanted,
            } => long(alloc, name, value, help).required(is_wanted),
        }
    }
}

/// A word that is given or not, as `--name`.
fn flag<'a>(alloc: Global, name: &'a str, help: &'a str) -> Arg<'a> {
    Arg::new(alloc, name)
        .long(name)
        .action(ArgAction::SetTrue)
        .help(help)
}

/// A value that has to be given, with no name before it.
fn place<'a>(alloc: Global, name: &'a str, value: &'a str, help: &'a str) -> Arg<'a> {
    Arg::new(alloc, name)
        .value_name(value)
        .required(true)
        .action(ArgAction::Set)
        .help(help)
}

/// A word with a value, as `--name VALUE`.
fn named<'a>(alloc: Global, name: &'a str, value: &'a str, help: &'a str) -> Arg<'a> {
    Arg::new(alloc, name)
        .long(name)
        .value_name(value)
        .action(ArgAction::Set)
        .help(help)
}

/// A word whose value is a number of 32 bits.
fn short<'a>(alloc: Global, name: &'a str, value: &'a str, help: &'a str) -> Arg<'a> {
    named(alloc, name, value, help).value_parser(value_parser!(u32))
}

/// A word whose value is a number of 64 bits.
fn long<'a>(alloc: Global, name: &'a str, value: &'a str, help: &'a str) -> Arg<'a> {
    named(alloc, name, value, help).value_parser(value_parser!(u64))
}
