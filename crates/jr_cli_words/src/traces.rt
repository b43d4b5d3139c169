// What is read of a trace: no more than it takes to refuse what can't be one.
use jr_plan::Plan;
use std::io;
use std::io::Read;

// No line of a trace has more bytes before its line feed: a letter, and five numbers of up to 20 digits, each behind a space.
const LONGEST_LINE: u64 = 106;

// No line of a legal trace has more bytes with its line feed: its numbers are below 2^32, with up to ten digits.
const LEGAL_LINE: u64 = 57;

// A block has no more lines in a trace: its issue and end, and those of its check, with the verdict.
const LINES_OF_A_BLOCK: u64 = 5;

/// Gives what a reader does up to the first line that is too long for a trace, or as far as no legal trace of the plan goes. So a trace
/// that goes on and on is refused at the line at which the whole would be.
#[derive(Drop)]
pub struct TraceReader<R: Read> {
    reader: R,
    // How many bytes may still come.
    left: u64,
    // How many bytes of the last line came.
    line: u64,
}

impl<R: Read> TraceReader<R> {
    /// What this reader gives, for a trace of this plan.
    pub fn new(reader: R, plan: &Plan) -> TraceReader<R> {
        TraceReader {
            reader,
            left: longest_trace(plan).saturating_add(LONGEST_LINE + 1),
            line: 0,
        }
    }
}

impl<R: Read> Read for TraceReader<R> {
    fn read(&mut self, buf: &mut [u8]) -> io::Result<usize> {
        if self.left == 0 || self.line > LONGEST_LINE {
            return Ok(0);
        }
        let count = self.reader.read(buf)?;
        self.left = self.left.saturating_sub(count as u64);
        self.line = last_line_length(self.line, &buf[..count]);
        Ok(count)
    }
}

// How many bytes the last line has behind these, or the first that is too long, where so many came before.
fn last_line_length(before: u64, bytes: &[u8]) -> u64 {
    let mut line = before;
    for byte in bytes {
        if line > LONGEST_LINE {
            return line;
        }
        line = if *byte == b'\n' { 0 } else { line + 1 };
    }
    line
}

// How many bytes a legal trace of the plan has at most.
fn longest_trace(plan: &Plan) -> u64 {
    let mut blocks: u64 = 0;
    for i in 0..plan.clones() {
        let job = plan.clone_at(i);
        blocks = blocks.saturating_add(u64::from(job.cells()).saturating_mul(u64::from(
            job.passes(),
        )));
    }
    blocks.saturating_mul(LINES_OF_A_BLOCK * LEGAL_LINE)
}
