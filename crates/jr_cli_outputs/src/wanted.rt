// Where a run found what, told behind its report: a map of each file, and the outputs that are asked for.
ghost use Rattle.jr_replay_traces.specs.Runs.{IsLegalRun};

use crate::maps::show_maps;
use crate::outputs::Outputs;
use jr_cli_ends::{Findings, Storage};
use jr_cli_notes::{Beginning, Surroundings, tell_found};
use jr_cli_words::{Choice, CliFault};
use jr_desk::Desk;
use jr_plan::Plan;
use jr_replay_traces::Checked;
use jr_system::{Closed, Outlet, Stop};
use std::time::Clock;

/// What is to be told of a run apart from its report.
#[derive(Drop)]
pub struct Wanted {
    /// Where it goes.
    pub outputs: Outputs,
    // Whether the maps of its files are shown.
    has_maps: bool,
    // Whether notes are wanted.
    has_notes: bool,
    // When and where the run began.
    begun: Beginning,
    // The text of its job file.
    job: Vec<u8>,
}

impl Wanted {
    /// What the words ask for, of a run of the plan that this job text makes. An output that can't be is refused.
    pub fn of<R: Outlet + Clock>(
        rt: &R,
        choice: &Choice<'_>,
        plan: &Plan,
        job: &[u8],
    ) -> Result<Wanted, Stop> {
        let Ok(job) = Vec::from_slice(rt.alloc(), job) else {
            return Err(Stop::from(CliFault::Memory));
        };
        Ok(Wanted {
            outputs: Outputs::of(rt, choice, plan)?,
            // (the check of a trace shows them where they are asked for)
            has_maps: choice.map || choice.check_trace.is_none() && rt.prints_to_terminal(),
            has_notes: choice.notes || rt.is_shown(),
            begun: Beginning::now(rt),
            job,
        })
    }

    /// Tells it, of the desk's run, which has its report, and of whose files the system said this. A trace that couldn't be written to its end
    /// doesn't take its name. The first thing that can't be told is answered.
    pub fn tell<R: Outlet + Clock>(
        &self,
        rt: &R,
        desk: &Desk,
        closed: &Closed,
        is_trace_cut: bool,
    ) -> Result<(), Stop> {
        let traced = if is_trace_cut {
            Ok(())
        } else {
            self.outputs.finish_trace(rt)
        };
        let told = self.tell_run(rt, desk, closed);
        self.outputs.clear(rt);
        traced.and(told)
    }

    /// Says what stands in the first bad blocks of a run of the plan, where notes are wanted.
    pub fn tell_found<R: Outlet>(&self, rt: &R, plan: &Plan, closed: &Closed) {
        if self.has_notes {
            tell_found(rt, plan, closed.found.as_slice());
        }
    }

    fn tell_run<R: Outlet + Clock>(
        &self,
        rt: &R,
        desk: &Desk,
        closed: &Closed,
    ) -> Result<(), Stop> {
        self.tell_found(rt, desk.plan(), closed);
        if self.outputs.is_empty() && !self.has_maps {
            return Ok(());
        }
        let Ok(findings) = Findings::of_desk(rt.alloc(), desk) else {
            return Err(Stop::from(CliFault::Memory));
        };
        self.tell_findings(rt, &findings, closed)
    }

    /// Tells it, of the run that a trace of the plan is of.
    pub fn tell_trace<R: Outlet + Clock>(
        &self,
        rt: &R,
        plan: &Plan,
        run: &Checked,
    ) -> Result<(), Stop>
        requires { IsLegalRun plan.now run.now }
    {
        if self.outputs.is_empty() && !self.has_maps {
            return Ok(());
        }
        let Ok(findings) = Findings::of_trace(rt.alloc(), plan, run) else {
            return Err(Stop::from(CliFault::Memory));
        };
        self.tell_findings(rt, &findings, &Closed::of_no_files(rt.alloc()))
    }

    /// Tells it at the end of several rounds, of the desk of the last of them, with the blocks that were bad in any.
    pub fn tell_last<R: Outlet + Clock>(
        &self,
        rt: &R,
        last: &Desk,
        closed: &Closed,
        blocks: &[u64],
    ) -> Result<(), Stop> {
        let Ok(findings) = Findings::of_desk(rt.alloc(), last) else {
            return Err(Stop::from(CliFault::Memory));
        };
        let shown = self.show(rt, &findings);
        let about = self.surroundings(rt, findings.plan())?;
        let notes = about.notes(closed.reasons.as_slice(), closed.found.as_slice());
        let written = self.outputs.write_last(rt, last, &findings, blocks, &notes);
        shown?;
        written
    }

    /// What is known of a run that ends now, beside its history.
    pub fn surroundings<R: Outlet + Clock>(
        &self,
        rt: &R,
        plan: &Plan,
    ) -> Result<Surroundings, Stop> {
        match Surroundings::of(rt, plan, &self.begun, self.job.as_slice()) {
            Ok(about) => Ok(about),
            Err(_) => Err(Stop::from(CliFault::Memory)),
        }
    }

    fn tell_findings<R: Outlet + Clock>(
        &self,
        rt: &R,
        findings: &Findings<'_>,
        closed: &Closed,
    ) -> Result<(), Stop> {
        let shown = self.show(rt, findings);
        let about = self.surroundings(rt, findings.plan())?;
        let notes = about.notes(closed.reasons.as_slice(), closed.found.as_slice());
        let written = self
            .outputs
            .write(rt, findings, &storage_of(closed), &notes);
        shown?;
        written
    }

    // Shows maps of the files, if they are wanted and something was found.
    fn show<R: Outlet>(&self, rt: &R, findings: &Findings<'_>) -> Result<(), CliFault> {
        if self.has_maps && findings.found() != 0 {
            show_maps(rt, findings)
        } else {
            Ok(())
        }
    }
}

fn storage_of(closed: &Closed) -> Storage {
    Storage {
        cached: closed.cached,
        direct: closed.direct,
        is_stored: closed.unstored.is_none(),
    }
}
