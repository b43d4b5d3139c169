/// What came of rounds that have ended.
#[derive(Clone, Copy, Debug, PartialEq, Eq)]
pub struct Outcome {
    /// A block came back wrong or an I/O failed in any of them.
    pub is_bad: bool,
    /// The last one was stopped before it was complete.
    pub is_interrupted: bool,
    /// The time that the words gave was over, which is no interruption.
    pub is_time_over: bool,
    /// All that they wrote is stored, their outputs among it.
    pub is_stored: bool,
}

impl Outcome {
    ghost use Rattle.std.specs.Prelude.{◌≡◌};
    ghost use Rattle.jr_cli_grounds.specs.Outcomes.{status_of_outcome};

    /// The exit status of the program.
    pub fn status(self) -> u8
        ensures { result ≡ status_of_outcome self }
    {
        if self.is_bad {
            1
        } else if !self.is_stored {
            3
        } else if self.is_interrupted && !self.is_time_over {
            130
        } else {
            0
        }
    }
}
