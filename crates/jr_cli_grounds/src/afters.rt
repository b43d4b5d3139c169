// What is judged after a cut: whether the words and the plan may ask for it, the plan's files, and what is said of them.
ghost use Rattle.std.specs.Prelude.{◌≡◌, ◌≢◌, ◌⊎◌, IfOk, IfErr, OnOk, Some, None};
ghost use Rattle.std.specs.IoError.{error_kind};
ghost use Rattle.jr_io_files.specs.Engines.{IsFresh};
ghost use Rattle.jr_io_files.specs.ToRead.{views_to_read};
ghost use Rattle.jr_cli_grounds.specs.Afters.{has_run_words, has_traces, judgement_fault};
ghost use Rattle.jr_cli_grounds.specs.Taken.{reads_of};

use crate::files::{Taken, claims_of, drop_pipes_of};
use crate::ledgers::{has_rounds, refuse, unjudgeable};
use crate::remarks::Remarks;
use jr_cli_words::{Choice, CliFault};
use jr_escape::Escaped;
use jr_io_blocks::Launcher;
use jr_io_files::{Reserved, claim_to_read};
use jr_model::{Dir, Piece};
use jr_plan::Plan;
use jr_system::{Screen, Stop};
use std::alloc::{AllocGlobal, Global};
use std::fs::{File, Files};
use std::io;
use std::io::ErrorKind;

// So many chunks that can't be read are named.
const MOST_NAMED: usize = 10;

/// Refuses a judgement of the plan's files that the words ask for, where they ask for what a run alone has, where the job has no files, and
/// where it can't be judged.
pub fn refuse_judgement(alloc: Global, choice: &Choice<'_>, plan: &Plan) -> Result<(), Stop>
    ensures fault { IfErr result (λ stop. Some stop ≡ judgement_fault choice.now plan.now) }
    ensures none { OnOk result (judgement_fault choice.now plan.now ≡ None) }
{
    refuse(alloc, plan, judgement_fault(choice, plan))
}

// Why the words and the plan can't ask for a judgement.
fn judgement_fault(choice: &Choice<'_>, plan: &Plan) -> Option<CliFault>
    ensures { result ≡ judgement_fault choice.now plan.now }
{
    if has_run_words(choice) {
        return Some(CliFault::AfterRun);
    }
    unjudgeable(plan)
}

// Whether the words ask for what a run alone has.
fn has_run_words(choice: &Choice<'_>) -> bool
    ensures { result ≡ has_run_words choice.now }
{
    choice.ledger.is_some()
        || choice.sync_every.is_some()
        || has_traces(choice)
        || has_rounds(choice)
        || choice.map
}

fn has_traces(choice: &Choice<'_>) -> bool
    ensures { result ≡ has_traces choice.now }
{
    choice.trace.is_some() || choice.check_trace.is_some() || choice.keep_traces
}

/// Takes the plan's files to be judged: each that a clone writes has to be there, and none is made or written. A launcher drops what the
/// system keeps of them. None of them may be one that the program keeps for something else.
pub fn take_to_read<'a, R: Files<File = File> + AllocGlobal + Screen>(
    rt: &R,
    plan: &Plan,
    choice: &Choice<'a>,
    kept: &[Reserved<'_>],
) -> Result<Taken<'a>, Stop>
    ensures opened { IfOk result (λ taken. taken.files.files ≡ views_to_read plan.now.clones 0 plan.now.files) }
    ensures reads { IfOk result (λ taken. taken.reads ≡ reads_of choice.now.cached) }
    ensures failed { IfErr result (λ fault. (fault ≡ CliFault.Open) ⊎ (fault ≡ CliFault.Memory)) }
{
    let reads = claims_of(choice).reads;
    let files = match claim_to_read(rt, rt.alloc(), plan, reads, kept) {
        Ok(files) => files,
        Err(refusal) => return Err(Stop::files(refusal)),
    };
    Ok(Taken {
        files,
        launcher: Launcher::new(drop_pipes_of(choice)),
        reads,
        direct: None,
        remarks: Remarks::new(rt, plan, choice)?,
    })
}

impl<'a> Taken<'a> {
    /// How many reads of the files the system's cache may have answered.
    pub fn cached_reads(&self) -> u64 {
        self.files().cached_reads()
    }

    /// Says of which chunks the system refused the read, with its reasons, and whether its cache may have answered others.
    pub fn tell_judged<R: Eprint>(&self, rt: &R, plan: &Plan, unread: &[Piece]) {
        if self.remarks.has_notes() {
            for chunk in unread.iter().take(MOST_NAMED) {
                self.tell_unread(rt, plan, chunk);
            }
            let more = unread.len().saturating_sub(MOST_NAMED);
            if more != 0 {
                let _ = eprintln!(rt; "fiorun: note: and {more} chunks more that can't be read");
            }
        }
        self.remarks.tell_undropped(rt, self.files().cached_reads());
    }

    fn tell_unread<R: Eprint>(&self, rt: &R, plan: &Plan, chunk: &Piece) {
        let name = Escaped(&plan.file_name(chunk.file));
        let (offset, len) = (chunk.offset, chunk.len);
        let _ = match self.files().failed_call(chunk.file, Dir::Read, offset, len) {
            Some(call) => eprintln!(rt;
                "fiorun: note: cannot read {len} bytes of {name} at {offset}: {}",
                call.error
            ),
            None => eprintln!(rt;
                "fiorun: note: cannot read {len} bytes of {name} at {offset}: it ends there"
            ),
        };
    }
}
