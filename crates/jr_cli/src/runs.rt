ghost use Rattle.std.specs.Prelude.{◌≡◌, ◌<◌, ◌≤◌, ◌^◌, [], true, false, map, None, Err, IfOk, IfErr, IsOkAnd, OnOk};
ghost use Rattle.std.specs.Io.KnownBytes.{Appends};
ghost use Rattle.jr_model.specs.Legal.{is_complete};
ghost use Rattle.jr_model.specs.Report.{totals_lines};
ghost use Rattle.jr_model.specs.Serial.{serial_history};
ghost use Rattle.jr_laws_quiet.specs.Declining.{none_declines};
ghost use Rattle.jr_laws_bytes.specs.BadVerdicts.{has_bad};
ghost use Rattle.jr_crew_threads.specs.Stops.{IsCompleteOrAsked};
ghost use Rattle.jr_crew.specs.Runs.{IsFresh};
ghost use Rattle.jr_report_faults.specs.Faults.{AreFaultsOf};
ghost use Rattle.jr_cli.specs.Checked.{IsCheckFault};
ghost use Rattle.jr_cli.specs.Executed.{HasRun, HasCrewRun, HasEndedRun, HasEndedCrewRun, IsCutShort, IsDeskOf};
ghost use Rattle.jr_cli.specs.Executed.{IsQuietlyReported, IsReported, IsRunFault, IsTraced};
ghost use Rattle.jr_replay_traces.specs.Runs.{IsRunIn};
ghost use Rattle.jr_replay_traces.specs.TraceChecks.{check_of, check_of_part};
ghost use Rattle.jr_replay_traces.specs.Traces.{trace_of};
ghost use Rattle.jr_cli_ends.specs.Status.{is_interrupted};

use jr_cli_ends::{Executed, faults_found, status_of};
use jr_cli_words::{CliFault, write_out};
use jr_crew::{RunFault, StopRequest, Watch, run_booked, run_serial_asked};
use jr_desk::Desk;
use jr_engines::Engine;
use jr_plan::Plan;
use jr_replay_traces::{Checked, read_run};
use jr_report_faults::Faults;
use jr_run_faults::TraceFault;
use jr_stats::{report, totals_text, trace};
use std::alloc::Global;
use std::io::Write;
use std::sync::Wait;
use std::thread::Threads;
use std::time::Clock;

/// Runs a plan with one worker, writes the report and then the trace if one is asked for, and says what was found, the run's
/// faults among it. If the run is asked to stop, report and trace are of what it did until then.
pub fn execute_serial<'w, R: Clock, W: Write, V: Write>(
    rt: &R,
    alloc: Global,
    plan: Plan,
    engine: &mut dyn Engine,
    watch: Watch<'w>,
    events: Option<&mut W>,
    out: &mut V,
) -> Result<Executed<'w>, CliFault>
    requires { (state engine.old).calls ≤ 2 ^ 63 }

    // The report, the trace and what was found are those of one run of this engine, whole or interrupted.
    ensures ended { IfOk result (λ ended. HasEndedRun plan (state engine.old) (state engine.new) (is_interrupted ended) (λ history.
        IsReported plan history (V.contents out.old) (V.contents out.new) ended.found
        × IsTraced W.contents events.entry events.exit history × AreFaultsOf plan history ended.faults
        × IsDeskOf plan history ended.desk)) }

    // Where it isn't interrupted, that is a whole run; and nothing else can be where nobody can stop it.
    ensures run { IfOk result (λ ended. is_interrupted ended ≡ false → HasRun plan (state engine.old) (state engine.new) (λ history.
        IsReported plan history (V.contents out.old) (V.contents out.new) ended.found
        × IsTraced W.contents events.entry events.exit history × AreFaultsOf plan history ended.faults
        × IsDeskOf plan history ended.desk)) }
    ensures unasked { watch.entry.stop ≡ None → IfOk result (λ ended. is_interrupted ended ≡ false) }

    // It is complete, or this flag was set.
    ensures asked { IfOk result (λ ended. IsCompleteOrAsked watch.entry.stop (is_complete plan ended.desk.history) ended.asked) }

    // Over a fresh memory it is the history of one worker, and nothing goes wrong: only a checked read can be found bad there.
    ensures serial { IsFresh plan (state engine.old) → IfOk result (λ ended. is_interrupted ended ≡ false
        → IsReported plan (serial_history plan) (V.contents out.old) (V.contents out.new) ended.found
        × IsTraced W.contents events.entry events.exit (serial_history plan)) }
    ensures clean { IsFresh plan (state engine.old) → has_bad (serial_history plan) ≡ false
        → IfOk result (λ ended. is_interrupted ended ≡ false → ended.found ≡ 0) }
    ensures quiet { IfOk result (λ ended. is_interrupted ended ≡ false
        → IsQuietlyReported plan (V.contents out.old) (V.contents out.new) ended.found) }
    ensures failed { IfErr result IsCutShort }
{
    // Its contract says what holds of every plan.
    plan.facts();
    let ran = run_serial_asked(rt, alloc, plan, engine, watch)?;
    let faults = faults_found(alloc, &ran.desk)?;
    let ended = print_report(alloc, ran.desk, ran.asked, faults, out)?;
    if let Some(events) = events {
        print_trace(alloc, &ended.desk, events)?;
    }
    Ok(ended)
}

/// Runs a plan with one worker an engine, all at once, writes the report and then the trace if one is asked for, and says what
/// was found, as `execute_serial` does.
pub fn execute<'w, R: Threads + Wait + Clock + Sync, W: Write, V: Write>(
    rt: &R,
    alloc: Global,
    plan: Plan,
    engines: Vec<Box<dyn Engine + Send>>,
    watch: Watch<'w>,
    events: Option<&mut W>,
    out: &mut V,
) -> Result<Executed<'w>, CliFault>
    // The report, the trace and what was found are those of one run of these engines, whole or interrupted.
    ensures ended { IfOk result (λ ended. HasEndedCrewRun plan (map (λ engine. state engine) engines.items) (is_interrupted ended)
        (λ history. IsReported plan history (V.contents out.old) (V.contents out.new) ended.found
        × IsTraced W.contents events.entry events.exit history × AreFaultsOf plan history ended.faults
        × IsDeskOf plan history ended.desk)) }

    // Where it isn't interrupted, that is a whole run; and nothing else can be where nobody can stop it.
    ensures run { IfOk result (λ ended. is_interrupted ended ≡ false
        → HasCrewRun plan (map (λ engine. state engine) engines.items) (λ history.
        IsReported plan history (V.contents out.old) (V.contents out.new) ended.found
        × IsTraced W.contents events.entry events.exit history × AreFaultsOf plan history ended.faults
        × IsDeskOf plan history ended.desk)) }
    ensures unasked { watch.entry.stop ≡ None → IfOk result (λ ended. is_interrupted ended ≡ false) }

    // It is complete, or this flag was set.
    ensures asked { IfOk result (λ ended. IsCompleteOrAsked watch.entry.stop (is_complete plan ended.desk.history) ended.asked) }

    // So the report is the same for every schedule, where no clone declines that overlapping I/O waits, the clones have files of
    // their own, and nothing goes wrong.
    ensures quiet { IfOk result (λ ended. is_interrupted ended ≡ false
        → none_declines plan ≡ true → IsQuietlyReported plan (V.contents out.old) (V.contents out.new) ended.found) }
    ensures none { engines.items ≡ [] → result ≡ Err (CliFault.Run RunFault.NoEngine) }
    ensures no_engine { IfErr result (λ fault. fault ≡ CliFault.Run RunFault.NoEngine → engines.items ≡ []) }
    ensures thread { IfErr result (λ fault. fault ≡ CliFault.Run RunFault.Thread → 0 < plan.verifiers) }
    ensures failed { IfErr result IsRunFault }
{
    // Its contract says what holds of every plan.
    plan.facts();
    let ran = run_booked(rt, alloc, plan, engines, watch)?;
    let faults = faults_found(alloc, &ran.desk)?;
    let told = print_report(alloc, ran.desk, ran.asked, faults, out)?;
    if let Some(events) = events {
        print_trace(alloc, &told.desk, events)?;
    }
    Ok(told)
}

// Prints the report of the desk's history, and says what was found, with these faults, and what asked the run to stop.
fn print_report<'w, V: Write>(
    alloc: Global,
    desk: Desk,
    asked: Option<StopRequest<'w>>,
    faults: Faults,
    out: &mut V,
) -> Result<Executed<'w>, CliFault>
    ensures reported { IfOk result (λ ended.
        IsReported desk.plan desk.history (V.contents out.old) (V.contents out.new) ended.found) }
    ensures asked { IfOk result (λ ended. ended.asked ≡ asked.entry) }
    ensures faults { IfOk result (λ ended. ended.faults ≡ faults) }
    ensures desk { IfOk result (λ ended. ended.desk ≡ desk) }
    ensures failed { IfErr result IsCutShort }
{
    let text = report(alloc, &desk)?;
    write_out(text.as_slice(), out)?;
    Ok(Executed {
        found: status_of(desk.totals()),
        asked,
        faults,
        desk,
    })
}

fn print_trace<W: Write>(alloc: Global, desk: &Desk, events: &mut W) -> Result<(), CliFault>
    ensures printed { OnOk result (Appends (W.contents events.old) (W.contents events.new) (trace_of desk.now.history)) }
    ensures failed { IfErr result IsCutShort }
{
    let lines = trace(alloc, desk)?;
    write_out(lines.as_slice(), events)
}

/// Checks a trace of the plan, and prints what each clone did in it. The run that was read is handed on.
pub fn print_check<V: Write>(
    alloc: Global,
    plan: &Plan,
    text: &[u8],
    out: &mut V,
) -> Result<Checked, CliFault>
    // What is printed are the totals of a text that is the trace of a whole legal run.
    ensures printed { OnOk result (IsOkAnd (check_of plan.now text.now) (λ totals.
        Appends (V.contents out.old) (V.contents out.new) (totals_lines plan.now totals))) }
    ensures refused { IfErr result (IsCheckFault (check_of plan.now text.now)) }
    ensures run { IfOk result (IsRunIn plan.now text.now) }
{
    let run = read_run(alloc, plan, text)?;
    if !run.is_complete {
        return Err(CliFault::Trace(TraceFault::Unfinished));
    }
    let lines = totals_text(alloc, plan, run.totals.as_slice())?;
    write_out(lines.as_slice(), out)?;
    Ok(run)
}

/// Checks a trace of the plan that may be of a run that was stopped, and prints what each clone did in it.
pub fn print_stopped_totals<V: Write>(
    alloc: Global,
    plan: &Plan,
    text: &[u8],
    out: &mut V,
) -> Result<Checked, CliFault>
    // What is printed are the totals of a text that is the trace of a legal run, as far as it came.
    ensures printed { OnOk result (IsOkAnd (check_of_part plan.now text.now) (λ totals.
        Appends (V.contents out.old) (V.contents out.new) (totals_lines plan.now totals))) }
    ensures refused { IfErr result (IsCheckFault (check_of_part plan.now text.now)) }
    ensures run { IfOk result (IsRunIn plan.now text.now) }
{
    let part = read_run(alloc, plan, text)?;
    let lines = totals_text(alloc, plan, part.totals.as_slice())?;
    write_out(lines.as_slice(), out)?;
    Ok(part)
}
