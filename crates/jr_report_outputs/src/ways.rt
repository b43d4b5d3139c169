// How an output is written, by what stands at its path.
ghost use Rattle.std.specs.Prelude.{◌≡◌};
ghost use Rattle.jr_report_outputs.specs.Ways.{way_of};

/// What stands at a path.
#[derive(Clone, Copy, PartialEq, Eq)]
pub enum Kind {
    /// Nothing.
    Missing,
    /// A plain file.
    Plain,
    /// A pipe or a device of characters.
    Stream,
    /// A folder, a block device or a socket.
    Other,
}

/// Where a path leads.
#[derive(Clone, Copy, PartialEq, Eq)]
pub enum Where {
    /// To a name in a folder.
    Folder,
    /// To a name in or under /dev, /proc or /sys.
    System,
    /// To an open file of the program, by its number.
    Descriptor,
}

/// How an output is written.
#[derive(Clone, Copy, PartialEq, Eq)]
pub enum Way {
    /// To a new file, which then takes the name.
    Replace,
    /// To what is there.
    Through,
}

/// How an output is written where this stands; none where it can't be.
pub fn way_of(kind: Kind, place: Where) -> Option<Way>
    ensures { result ≡ way_of kind place }
{
    match (kind, place) {
        (Kind::Missing | Kind::Plain, Where::Folder) => Some(Way::Replace),
        (Kind::Plain, Where::Descriptor) | (Kind::Stream, _) => Some(Way::Through),
        _ => None,
    }
}
