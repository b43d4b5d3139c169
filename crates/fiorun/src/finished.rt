// A run that has ended, and what could be stored and written of it.
ghost use Rattle.std.specs.Prelude.{◌≡◌};

use jr_cli_ends::RunEnd;
use jr_cli_outputs::{TraceFile, Wanted};
use jr_cli_words::CliFault;
use jr_system::{Closed, Outlet, Stop};
use std::alloc::Global;
use std::time::Clock;

// How a run ended that has its report, what the system said of its files, and why the first of its other outputs couldn't be written,
// where one couldn't.
#[derive(Drop)]
pub struct Finished {
    pub ended: RunEnd,
    pub closed: Closed,
    // Whether a trace was asked for, and couldn't be written to its end.
    pub is_trace_cut: bool,
    unwritten: Option<Stop>,
}

impl Finished {
    // A run over no files, whose report may be cut, with its trace where one was asked for.
    pub fn new<R: Outlet>(
        alloc: Global,
        ended: RunEnd,
        is_cut: bool,
        trace: Option<TraceFile<'_, R>>,
    ) -> Finished
        ensures { result.ended ≡ ended }
    {
        let is_trace_cut = match &trace {
            Some(trace) => trace.has_failed,
            None => false,
        };
        let unwritten = if is_cut || is_trace_cut {
            Some(Stop::from(CliFault::Write))
        } else {
            None
        };
        Finished {
            ended,
            closed: Closed::of_no_files(alloc),
            is_trace_cut,
            unwritten,
        }
    }

    // This run with what the system said of its files.
    pub fn over(self, closed: Closed) -> Finished
        ensures ended { result.ended ≡ self.ended }
        ensures closed { result.closed ≡ closed }
    {
        let Finished {
            ended,
            closed: _nothing,
            is_trace_cut,
            unwritten,
        } = self;
        Finished {
            ended,
            closed,
            is_trace_cut,
            unwritten,
        }
    }

    // This run with what became of its further outputs.
    pub fn and(mut self, written: Result<(), Stop>) -> Finished
        ensures ended { result.ended ≡ self.ended }
        ensures closed { result.closed ≡ self.closed }
    {
        if let Err(stop) = written
            && self.unwritten.is_none()
        {
            self.unwritten = Some(stop);
        }
        self
    }

    // This run with what could be told of it of what is wanted.
    pub fn told<R: Outlet + Clock>(self, rt: &R, wanted: &Wanted) -> Finished {
        let written = wanted.tell(rt, &self.ended.desk, &self.closed, self.is_trace_cut);
        self.and(written)
    }

    // How it ended, and what the system said of its files.
    pub fn into_parts(self) -> (RunEnd, Closed)
        ensures ended { result.0 ≡ self.ended }
        ensures closed { result.1 ≡ self.closed }
    {
        let Finished {
            ended,
            closed,
            is_trace_cut: _,
            unwritten: _nothing,
        } = self;
        (ended, closed)
    }

    // Why the first thing that couldn't be stored or written couldn't be, where there is one.
    pub fn missing(&self) -> Option<&Stop> {
        match &self.closed.unstored {
            Some(stop) => Some(stop),
            None => self.unwritten.as_ref(),
        }
    }
}
