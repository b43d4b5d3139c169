ghost use Rattle.std.specs.Prelude.{◌≤◌};

use crate::durations::duration_seconds;
use jr_cli_words::{Choice, CliFault};
use std::time::Duration;

/// How far a job goes that runs again and again.
#[derive(Clone, Copy)]
pub struct Limits {
    /// How many rounds at most.
    pub rounds: u32,
    /// How long at most.
    pub time: Option<Duration>,
    /// Whether another round follows one in which something was bad or failed.
    pub is_keeping_going: bool,
    ghost some: { 1 ≤ rounds },
}

impl Limits {
    /// What the words say of rounds; nothing where they ask for one run.
    pub fn of(choice: &Choice<'_>) -> Result<Option<Limits>, CliFault> {
        let time = time_of(choice)?;
        if time.is_none() && choice.repeat.is_none() {
            return Ok(None);
        }
        if choice.keep_going && choice.page.is_some() {
            return Err(CliFault::SeveralRounds);
        }
        Ok(Some(Limits {
            rounds: choice.repeat.unwrap_or(u32::MAX).max(1),
            time,
            is_keeping_going: choice.keep_going,
        }))
    }
}

// How long the job may run again and again, if the words say so.
fn time_of(choice: &Choice<'_>) -> Result<Option<Duration>, CliFault> {
    let Some(text) = choice.run_for else {
        return Ok(None);
    };
    match duration_seconds(text) {
        Some(seconds) => Ok(Some(Duration::from_secs(seconds))),
        None => Err(CliFault::Duration),
    }
}
