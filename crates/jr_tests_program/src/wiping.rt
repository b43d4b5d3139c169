use crate::asserts::same;
use jr_cli::{Wipe, Wiping};
use std::cell::Cell;
use std::io;
use std::io::Write;
use std::test::Fail;

// Counts how often it is wiped.
#[derive(Drop)]
struct Line {
    times: Cell<u8>,
}

impl Wipe for Line {
    fn wipe(&self) {
        self.times.set(self.times.get().saturating_add(1));
    }
}

// Takes writes of two bytes at most, and counts those that come before the line was wiped.
#[derive(Drop)]
struct Report<'a> {
    line: &'a Line,
    early: u8,
}

impl<'a> Write for Report<'a> {
    fn write(&mut self, text: &[u8]) -> io::Result<usize> {
        if self.line.times.get() == 0 {
            self.early = self.early.saturating_add(1);
        }
        Ok(text.len().min(2))
    }

    fn flush(&mut self) -> io::Result<()> {
        Ok(())
    }
}

#[test]
fn the_line_is_wiped_before_the_first_byte(rt: HostRuntime) -> Result<(), Fail> {
    let line = Line {
        times: Cell::new(0),
    };
    let out = Report {
        line: &line,
        early: 0,
    };
    let mut wiping = Wiping { line: &line, out };
    same(&rt, wiping.flush().is_ok(), true);
    same(&rt, line.times.get(), 0);
    same(&rt, wiping.write(b"seven").is_ok(), true);
    same(&rt, line.times.get(), 1);
    same(&rt, wiping.write_all(b"bytes").is_ok(), true);
    same(&rt, wiping.out.early, 0);
    Ok(())
}
