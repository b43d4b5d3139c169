// The command that runs an adapted job file.

use jr_job_notes::fio_seconds;
use jr_text::{Line, Section};
use std::alloc::{AllocError, Global};

// What the lines of a job file say of its command.
#[derive(Clone, Copy)]
pub struct Command {
    // The longest time of a job; none is 0.
    seconds: u64,
    // Whether a job runs again and again until its time is over.
    is_repeated: bool,
    // Whether it may write devices that are in use.
    writes_mounted: bool,
}

impl Command {
    pub(crate) fn of(sections: &[Section]) -> Command {
        let mut command = Command {
            seconds: 0,
            is_repeated: false,
            writes_mounted: false,
        };
        for section in sections {
            for line in section.lines() {
                command = command.with(line);
            }
        }
        command
    }

    // The command once this line is read too.
    fn with(self, line: &Line) -> Command {
        let mut command = self;
        let value = line.value().unwrap_or("1");
        match line.key() {
            "runtime" | "timeout" => {
                command.seconds = command.seconds.max(fio_seconds(value).unwrap_or(0));
            }
            "time_based" => command.is_repeated = command.is_repeated || value != "0",
            "allow_mounted_write" => {
                command.writes_mounted = command.writes_mounted || value != "0";
            }
            _ => {}
        }
        command
    }

    // The first line of the adapted text.
    pub(crate) fn text(self, alloc: Global) -> Result<String, AllocError> {
        let mut text = String::from_str(
            alloc,
            "; adapted from a job file of fio, to be run by: fiorun",
        )?;
        let seconds = self.seconds;
        if seconds > 0 {
            write!(text, " --for={seconds}s")?;
            if !self.is_repeated {
                text.push_str(" --repeat=1")?;
            }
        }
        if self.writes_mounted {
            text.push_str(" --allow-mounted-write")?;
        }
        text.push_str(" JOBFILE")?;
        Ok(text)
    }
}
