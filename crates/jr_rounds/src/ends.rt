use crate::sums::Sums;
use jr_cli_ends::RunEnd;

/// How rounds ended.
#[derive(Drop)]
pub struct RoundsEnd {
    /// How many there were.
    pub rounds: u32,
    /// 1 if a block came back wrong or an I/O failed in any of them, else 0.
    pub found: u8,
    /// What `RoundRunner::is_over` said after the last one.
    pub is_over: bool,
    /// How the last one ended.
    pub last: RunEnd,
    /// What each clone did in all of them.
    pub sums: Sums,
}

impl RoundsEnd {
    ghost use Rattle.std.specs.Prelude.{◌≡◌};
    ghost use Rattle.jr_rounds.specs.Repeats.{status_of_rounds};

    /// The exit status of the program, where all that the rounds wrote is stored, their outputs among it, or isn't.
    pub fn status(&self, is_stored: bool) -> u8
        ensures { result ≡ status_of_rounds self.now is_stored }
    {
        if self.found != 0 {
            return self.found;
        }
        self.last.status(is_stored)
    }
}
