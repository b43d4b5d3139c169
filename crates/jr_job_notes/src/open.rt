// What the refused lines of a job may still come to say: faults that hang on it aren't told before.

use crate::lines::is_refused;
use jr_options::JobFault;
use jr_text::Line;

// Keys that speak of how much a job does, of its blocks and places, and of what it checks.
const SIZES: &str = "size filesize io_size io_limit number_ios fill_device fill_fs";

const BLOCKS: &str =
    "rw readwrite bs blocksize bssplit bsrange blocksize_range offset fileoffset offset_increment numjobs loops";

const CHECKS: &str = "verify verify_pattern verify_interval buffer_pattern zero_buffers";

#[derive(Clone, Copy)]
pub struct Open {
    size: bool,
    blocks: bool,
    checks: bool,
    engine: bool,
}

impl Open {
    pub(crate) fn new() -> Open {
        Open {
            size: false,
            blocks: false,
            checks: false,
            engine: false,
        }
    }

    // What is open once these lines are read too.
    pub(crate) fn with_lines(self, lines: &[Line]) -> Open {
        let mut open = self;
        for line in lines {
            if is_refused(line) {
                open = open.with_key(line.key());
            }
        }
        open
    }

    fn with_key(self, key: &str) -> Open {
        Open {
            size: self.size || has_word(SIZES, key),
            blocks: self.blocks || has_word(BLOCKS, key),
            checks: self.checks || has_word(CHECKS, key),
            engine: self.engine || key == "ioengine",
        }
    }

    // Whether a fault of the job by itself stays, whatever becomes of its refused lines.
    pub(crate) fn keeps(self, fault: JobFault) -> bool {
        match fault {
            JobFault::MissingSize(_) => !self.size,
            JobFault::NoPattern(_) => !self.checks,
            _ => self.has_region() && !self.checks,
        }
    }

    // Whether no refused line may say where its blocks are, and how many.
    pub(crate) fn has_region(self) -> bool {
        !self.size && !self.blocks
    }

    // Whether no refused line may say its engine.
    pub(crate) fn has_engine(self) -> bool {
        !self.engine
    }
}

fn has_word(words: &str, key: &str) -> bool {
    words.split(' ').any(|word| word == key)
}
