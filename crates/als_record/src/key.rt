/// One record of the database: a slot, 0 to 14, of a page.
#[derive(Clone, Copy, Debug, Default, PartialEq, Eq, PartialOrd, Ord)]
pub struct Key {
    pub page: u32,
    pub slot: u8,
}
