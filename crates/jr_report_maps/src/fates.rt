ghost use Rattle.std.specs.Prelude.{◌≡◌};
ghost use Rattle.jr_report_maps.specs.Maps.{rank, worse};

/// What happened to the bytes of a part of a file, the worst last.
#[derive(Clone, Copy, PartialEq, Eq)]
pub enum Fate {
    /// Nothing, or nothing that has ended.
    Untouched,
    /// A job's read.
    Read,
    /// A check that found what was written, or a read whose bytes were right.
    Good,
    /// A write that is not checked, since another one took some of its blocks, meanwhile or later.
    Skipped,
    /// A write that no verdict was given on.
    Unchecked,
    /// A check, or a read that is checked, of which nothing is said: a write overlapped it while both were in flight.
    Void,
    /// An I/O that failed or ended short.
    Fault,
    /// A check that found something else, or a read whose bytes were wrong.
    Bad,
}

// How bad it is.
fn rank(fate: Fate) -> u8
    ensures { result ≡ rank fate }
{
    match fate {
        Fate::Untouched => 0,
        Fate::Read => 1,
        Fate::Good => 2,
        Fate::Skipped => 3,
        Fate::Unchecked => 4,
        Fate::Void => 5,
        Fate::Fault => 6,
        Fate::Bad => 7,
    }
}

// The worse of the two.
pub(crate) fn worse(a: Fate, b: Fate) -> Fate
    ensures { result ≡ worse a b }
{
    if rank(a) < rank(b) { b } else { a }
}
