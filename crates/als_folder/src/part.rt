ghost use Rattle.std.specs.Prelude.{◌≡◌};
ghost use Rattle.als_folder.specs.Parts.{file_name_of};

/// What a folder holds, or the folder itself.
#[derive(Clone, Copy, Debug, PartialEq, Eq)]
pub enum Part {
    /// What a path names itself: the folder.
    Itself,
    /// The log's device.
    Log,
    /// The control block's device. Where it is, there is a whole database.
    Control,
    /// The pages' device.
    Pages,
    /// The log's device of a database that is being laid out.
    NewLog,
    /// Its control block's device.
    NewControl,
    /// Its pages' device.
    NewPages,
    /// Which epoch a primary writes. A standby has none.
    Role,
    /// The same, before it is whole.
    NewRole,
    /// Which folder it is, for the nodes that it follows.
    Id,
    /// The same, before it is whole.
    NewId,
}

impl Part {
    /// Its name in the folder. The folder itself has none.
    pub fn file_name(self) -> &'static str
        ensures { result.now ≡ file_name_of self }
    {
        match self {
            Part::Itself => "",
            Part::Log => "log.blk",
            Part::Control => "control.blk",
            Part::Pages => "pages.blk",
            Part::NewLog => "log.new",
            Part::NewControl => "control.new",
            Part::NewPages => "pages.new",
            Part::Role => "role",
            Part::NewRole => "role.new",
            Part::Id => "id",
            Part::NewId => "id.new",
        }
    }
}
