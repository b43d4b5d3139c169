// When and where a run was.
use jiff::Timestamp;
use jr_report_json::RunSetting;
use std::alloc::{AllocGlobal, Global};
use std::fs;
use std::fs::{File, Files};
use std::time::{Clock, Instant};

/// When a run began, by the clock that says the time of day, and by the one that measures.
#[derive(Clone, Copy)]
pub struct Beginning {
    time: Option<Timestamp>,
    since: Option<Instant>,
}

impl Beginning {
    /// Now.
    pub fn now<R: Clock>(rt: &R) -> Beginning {
        Beginning {
            time: Timestamp::now(rt).ok(),
            since: Instant::now(rt).ok(),
        }
    }

    /// The setting of a run of this job text that began then and ends now. What can't be told is left out.
    pub fn setting<R: Clock + Files<File = File> + AllocGlobal>(
        &self,
        rt: &R,
        job: &[u8],
    ) -> RunSetting {
        let alloc = rt.alloc();
        RunSetting {
            began: self.time.and_then(|time| text_of(alloc, time)),
            ended: Timestamp::now(rt)
                .ok()
                .and_then(|time| text_of(alloc, time)),
            milliseconds: self.since.and_then(|since| passed(rt, since)),
            host: host(rt),
            job: job_text(alloc, job),
        }
    }
}

// A time to the second, as RFC 3339 writes it.
fn text_of(alloc: Global, time: Timestamp) -> Option<String> {
    let whole = Timestamp::from_second(time.as_second()).ok()?;
    format!(in alloc; "{whole}").ok()
}

fn passed<R: Clock>(rt: &R, since: Instant) -> Option<u64> {
    u64::try_from(since.elapsed(rt).ok()?.as_millis()).ok()
}

// The name of the machine.
fn host<R: Files<File = File> + AllocGlobal>(rt: &R) -> Option<String> {
    let text = fs::read_to_string(rt, "/proc/sys/kernel/hostname").ok()?;
    String::from_str(rt.alloc(), text.trim()).ok()
}

// The text of the job, where it is one.
fn job_text(alloc: Global, job: &[u8]) -> Option<String> {
    String::from_str(alloc, std::str::from_utf8(job).ok()?).ok()
}
