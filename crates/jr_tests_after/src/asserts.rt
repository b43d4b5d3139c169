// What these tests assert by. `assert_eq!` is a way out of the function that it stands in, with all that the function owns there; a call
// of these is none, so a test of many assertions is proved sooner.
ghost use Rattle.std.specs.Prelude.{◌≡◌, true};

use std::fmt::Debug;
use std::process::Abort;

// Fails the test where the two differ, and says both.
pub(crate) fn same<T: Copy + PartialEq + Debug>(rt: &impl Abort, found: T, wanted: T)
    ensures { T.eq found wanted ≡ true }
{
    assert_eq!(rt; found, wanted);
}
