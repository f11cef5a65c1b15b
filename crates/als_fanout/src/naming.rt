use crate::strayed::Strayed;
use std::fs::{File, Metadata};
use std::io::ErrorKind;
use std::os::unix::fs::MetadataExt;
use std::rt::Files;
use std::{fs, io};

/// Whether a path still names a log file that is open.
pub(crate) trait Naming {
    /// Why it names this file no more, if it does not.
    fn check(&self, held: &Metadata) -> Result<(), Strayed>;
}

/// It is looked at.
#[derive(Drop)]
pub(crate) struct ByPath<'a, R> {
    pub rt: &'a R,
    pub path: &'a str,
}

impl<R: Files<File = File>> Naming for ByPath<'_, R> {
    fn check(&self, held: &Metadata) -> Result<(), Strayed> {
        match fs::metadata(self.rt, self.path) {
            Ok(named) if is_same(held, &named) => Ok(()),
            Ok(_) => Err(Strayed::Replaced),
            Err(e) => Err(of_path(&e)),
        }
    }
}

/// Another thread looks at it.
#[derive(Drop)]
pub(crate) struct Elsewhere;

impl Naming for Elsewhere {
    fn check(&self, _held: &Metadata) -> Result<(), Strayed> {
        Ok(())
    }
}

/// Whether both are of one file.
fn is_same(held: &Metadata, named: &Metadata) -> bool {
    held.dev() == named.dev() && held.ino() == named.ino()
}

/// Why a path does not name the file that it named.
fn of_path(e: &io::Error) -> Strayed {
    match e.kind() {
        ErrorKind::NotFound => Strayed::Replaced,
        _ => Strayed::Unreadable,
    }
}
