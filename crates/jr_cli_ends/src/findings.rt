ghost use Rattle.std.specs.Prelude.{◌≡◌, IfOk, map, not};
ghost use Rattle.jr_report_faults.specs.Faults.{AreFaultsOf};
ghost use Rattle.jr_report_json.specs.Rows.{ending_of, notes_of};
ghost use Rattle.jr_model.specs.Legal.{is_complete};
ghost use Rattle.jr_model.specs.Report.{all_totals, in_order, miscompares};
ghost use Rattle.jr_desk_totals.specs.Bads.{miscompare_of};
ghost use Rattle.jr_replay_traces.specs.Runs.{IsLegalRun};
ghost use Rattle.jr_cli_ends.specs.Findings.{end_of, json_line};
ghost use Rattle.jr_cli_ends.specs.Status.{status_of};

use crate::found::faults_found;
use crate::status::{status_of, status_with};
use crate::storage::Storage;
use jr_cli_words::{LOGIC, RELEASE};
use jr_desk::Desk;
use jr_desk_totals::Bad;
use jr_model::{Event, Memory, Totals};
use jr_plan::Plan;
use jr_replay_traces::Checked;
use jr_report_faults::{Faults, faults_among};
use jr_report_json::{RunNotes, RunStatus};
use jr_report_lines::bads_in_order;
use jr_report_maps::bads_of;
use std::alloc::Global;
use std::marker::Model;

/// What is told of a run beside its report, or of the run that a trace is of. Contracts see its plan and its history.
#[derive(Drop)]
pub struct Findings<'a> {
    plan: &'a Plan,
    history: &'a [Event],
    // What each clone did.
    totals: &'a [Totals],
    // The bad verdicts, in the order in which they were given.
    bads: Vec<Bad>,
    // The bad verdicts by clone, pass and number.
    sorted: Vec<Bad>,
    // The I/Os and checks that failed or ended short.
    faults: Faults,
    // Whether the run came to its end.
    is_complete: bool,
}

impl<'a> Model for Findings<'a> {
    ghost use Rattle.jr_cli_ends.specs.Findings.{AreFindings, RunOf};

    ghost Value = { RunOf };

    ghost view = { λ f. record { plan = f.plan.now; history = f.history.now } };

    ghost invariant = { λ f. AreFindings f.plan.now f.history.now f.totals.now f.bads.items f.sorted.items f.faults f.is_complete };
}

impl<'a> Findings<'a> {
    /// Those of the desk's run, as far as it came.
    pub fn of_desk(alloc: Global, desk: &'a Desk) -> Result<Findings<'a>, Memory>
        ensures { IfOk result (λ findings. findings ≡ record { plan = desk.now.plan; history = desk.now.history }) }
    {
        let (plan, bads) = (desk.plan(), desk.bads());
        Ok(Findings {
            plan,
            history: desk.history(),
            totals: desk.totals(),
            bads: Vec::from_slice(alloc, bads)?,
            sorted: bads_in_order(alloc, plan, bads)?,
            faults: faults_found(alloc, desk)?,
            is_complete: desk.is_complete(),
        })
    }

    /// Those of the run that a trace of the plan is of.
    pub fn of_trace(alloc: Global, plan: &'a Plan, run: &'a Checked) -> Result<Findings<'a>, Memory>
        requires { IsLegalRun plan.now run.now }
        ensures { IfOk result (λ findings. findings ≡ record { plan = plan.now; history = run.now.past }) }
    {
        let history = run.past.events();
        let bads = bads_of(alloc, history)?;
        let sorted = bads_in_order(alloc, plan, bads.as_slice())?;
        Ok(Findings {
            plan,
            history,
            totals: run.totals.as_slice(),
            bads,
            sorted,
            faults: faults_among(alloc, plan, history, run.past.started())?,
            is_complete: run.is_complete,
        })
    }

    /// The plan.
    pub fn plan(&self) -> &Plan
        ensures { result.now ≡ self.now.plan }
    {
        self.plan
    }

    /// What happened, the oldest first.
    pub fn history(&self) -> &[Event]
        ensures { result.now ≡ self.now.history }
    {
        self.history
    }

    /// What each clone did, in the order of the clones.
    pub fn totals(&self) -> &[Totals]
        ensures { result.now ≡ all_totals self.now.plan self.now.history }
    {
        self.totals
    }

    /// The bad verdicts, in the order in which they were given.
    pub fn bads(&self) -> &[Bad]
        ensures { map miscompare_of result.now ≡ miscompares self.now.history }
    {
        self.bads.as_slice()
    }

    /// The bad verdicts by clone, pass and number, as the report has them.
    pub fn bads_in_order(&self) -> &[Bad]
        ensures { map miscompare_of result.now ≡ in_order self.now.plan (miscompares self.now.history) }
    {
        self.sorted.as_slice()
    }

    /// The I/Os and checks that failed or ended short: the first of them, and how many more.
    pub fn faults(&self) -> &Faults
        ensures { AreFaultsOf self.now.plan self.now.history result.now }
    {
        &self.faults
    }

    /// 1 if a block came back wrong or an I/O failed, else 0.
    pub fn found(&self) -> u8
        ensures { result ≡ status_of (all_totals self.now.plan self.now.history) }
    {
        status_of(self.totals)
    }

    /// Whether the run was stopped before it was complete.
    pub fn is_interrupted(&self) -> bool
        ensures { result ≡ not (is_complete self.now.plan self.now.history) }
    {
        !self.is_complete
    }

    /// How the run ended, of whose files the system said this.
    pub fn ending(&self, storage: &Storage) -> RunStatus<'static>
        ensures { ending_of result ≡ end_of self.now storage.now }
    {
        RunStatus {
            version: RELEASE,
            logic: LOGIC,
            status: status_with(self.found(), self.is_interrupted(), storage.is_stored),
            is_interrupted: self.is_interrupted(),
            cached: storage.cached,
            direct: storage.direct,
            is_stored: storage.is_stored,
        }
    }
}

/// The report as a line of JSON, with what else is known of the run, and what the system said of its files.
pub fn json_text(
    alloc: Global,
    findings: &Findings<'_>,
    notes: &RunNotes<'_>,
    storage: &Storage,
) -> Result<Vec<u8>, Memory>
    ensures { IfOk result (λ text. text.items ≡ json_line findings.now (notes_of notes.now) storage.now) }
{
    let plan = findings.plan();
    let ending = findings.ending(storage);
    jr_report_json::json_text(
        alloc,
        plan,
        findings.totals(),
        findings.bads_in_order(),
        findings.faults(),
        notes,
        &ending,
    )
}
