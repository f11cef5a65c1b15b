// What a folder was found to be.
ghost use Rattle.std.specs.Prelude.{◌≡◌, Ok};
ghost use Rattle.als_folder.specs.Layouts.{check_of};

use crate::folder::Folder;
use crate::holding::Holding;
use std::fs::File;

/// Whether a folder has a database.
#[derive(Drop)]
pub enum Found<'a, F = File> {
    /// It has a whole one.
    Kept,
    /// It has none, and a new one may be laid out.
    Vacant(Vacancy<'a, F>),
}

/// A folder that was found to have no control block, and no data in its log or its pages. A new
/// database is laid out in nothing else.
#[derive(Drop)]
pub struct Vacancy<'a, F = File> {
    pub(crate) folder: &'a Folder<F>,
    /// What its log holds.
    pub(crate) log: Holding,
    /// What its pages hold.
    pub(crate) pages: Holding,
    ghost nothing: { check_of log pages ≡ Ok tt },
}
