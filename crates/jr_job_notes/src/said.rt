// What the lines of a job say beside its options, where fio means something else by it.

use jr_text::Line;

#[derive(Clone, Copy)]
pub struct Said {
    // Whether a line says what it verifies by, or that it verifies nothing.
    pub(crate) verify: bool,
    // Whether it asks for files to be used past the cache: here by `direct`, in fio by `direct` or `buffered`.
    pub(crate) direct: bool,
    pub(crate) fio_direct: bool,
    // Whether its draws are to repeat from run to run.
    pub(crate) repeats: bool,
}

impl Said {
    pub(crate) fn new() -> Said {
        Said {
            verify: false,
            direct: false,
            fio_direct: false,
            repeats: true,
        }
    }

    // What is said once these lines are read too.
    pub(crate) fn with_lines(self, lines: &[Line]) -> Said {
        let mut said = self;
        for line in lines {
            said = said.with(line);
        }
        said
    }

    fn with(self, line: &Line) -> Said {
        let mut said = self;
        let is_on = line.value().unwrap_or("1") != "0";
        if line.key() == "verify" {
            said.verify = true;
        } else if line.key() == "direct" {
            said.direct = is_on;
            said.fio_direct = is_on;
        } else if line.key() == "buffered" {
            said.fio_direct = !is_on;
        } else if line.key() == "randrepeat" {
            said.repeats = is_on;
        }
        said
    }
}
