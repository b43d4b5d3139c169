// Laws over the definitions alone. Each function does nothing: its contract is the law, so that the
// check proves it.
ghost use Rattle.jr_options.specs.FileLaws.{LowIsLeast, HighIsGreatest};
ghost use Rattle.jr_options.specs.FileNames.{FilesAreNamed, FilesAreShared, FilesInOrder};

/// A planned file begins at the least start of the clones that use it.
pub fn low_is_least()
    ensures { LowIsLeast }
{}

/// A planned file ends at the greatest end of the clones that use it.
pub fn high_is_greatest()
    ensures { HighIsGreatest }
{}

/// The files of a plan are those that its jobs ask for: each clone's file has the name that its options give, two clones have
/// one file exactly if the names are equal, and files stand in the order of their first use.
pub fn files_are_asked()
    ensures named { FilesAreNamed }
    ensures shared { FilesAreShared }
    ensures in_order { FilesInOrder }
{}
