// What is said of a run beside its report, where notes are wanted.
ghost use Rattle.std.specs.Prelude.{◌≡◌, IfOk, IfErr, vec_len};

use jr_cli_words::{Choice, CliFault};
use jr_escape::Escaped;
use jr_io_files::{FileEngine, FileFault, SharedFile, Unsynced};
use jr_model::{Dir, Outcome, TicketKind};
use jr_plan::Plan;
use jr_report_faults::{Fault, FaultNote, Faults};
use jr_system::{Screen, Stop};
use std::alloc::{AllocError, Global};
use std::io;

/// What notes may say of the files of a run.
#[derive(Drop)]
pub struct Remarks {
    // Whether notes are wanted.
    has_notes: bool,
    // The names of the files that they may speak of.
    names: Vec<String>,
    // Whether nothing drops what checks are to read anew.
    is_undropped: bool,
    // Whether checks may be answered by the system's cache.
    is_cached: bool,
}

impl Remarks {
    pub fn new<R: Screen + AllocGlobal>(
        rt: &R,
        plan: &Plan,
        choice: &Choice<'_>,
    ) -> Result<Remarks, CliFault>
        ensures { IfErr result (λ fault. fault ≡ CliFault.Memory) }
    {
        let Ok(names) = names_of(rt.alloc(), plan) else {
            return Err(CliFault::Memory);
        };
        Ok(Remarks {
            has_notes: choice.notes || rt.is_shown(),
            names,
            is_cached: choice.cached,
            is_undropped: !choice.cached && choice.drop_pipes.is_none() && has_checks(plan),
        })
    }

    /// Whether notes are wanted.
    pub fn has_notes(&self) -> bool {
        self.has_notes
    }

    /// Says that a file couldn't be synced before the run.
    pub fn tell_unsynced<R: Eprint>(&self, rt: &R, failed: &Unsynced) {
        if self.has_notes {
            let name = self.name_of(failed.fault);
            let name = Escaped(&name);
            let _ = eprintln!(rt;
                "fiorun: note: cannot sync {name} before the run: {}",
                failed.error
            );
        }
    }

    /// Why the program ends, where a file couldn't be synced behind the run.
    pub fn unsettled(&self, alloc: Global, failed: &Unsynced) -> Stop
        ensures { result ≡ CliFault.Write }
    {
        match String::from_str(alloc, self.name_of(failed.fault)) {
            Ok(name) => Stop::unsynced(name, failed.error),
            Err(_) => Stop::from(CliFault::Write),
        }
    }

    fn name_of(&self, fault: FileFault) -> &str {
        match fault {
            FileFault::File(index) => match self.names.get(index) {
                Some(name) => name.as_str(),
                None => "",
            },
            FileFault::Memory => "",
        }
    }

    /// Says that the memory for direct files doesn't begin on a page for sure, where it doesn't.
    pub fn tell_tried<R: Eprint>(&self, rt: &R, engine: &FileEngine<SharedFile>) {
        if self.has_notes && engine.tries_places() {
            let _ = eprintln!(rt;
                "fiorun: note: direct=1: the place of memory for the device is found by trial, since the launcher can't see it"
            );
        }
    }

    /// Says that the system's cache may have answered checks, where it may: so many reads of files that are checked, or any, where there
    /// is no launcher.
    pub fn tell_undropped<R: Eprint>(&self, rt: &R, reads: u64) {
        if !self.has_notes {
            return;
        }
        if self.is_undropped {
            let _ = eprintln!(rt;
                "fiorun: note: the system's cache may have answered checks: started by bin/fiorun, files are dropped from it"
            );
        } else if reads > 0 && !self.is_cached {
            let _ = eprintln!(rt;
                "fiorun: note: the system's cache may have answered {reads} reads of files that are checked"
            );
        }
    }

    /// Says which faults there were, with the system's reason where the files have it.
    pub fn tell_faults<R: Eprint>(&self, rt: &R, files: &FileEngine<SharedFile>, faults: &Faults) {
        if !self.has_notes {
            return;
        }
        for note in faults.first.as_slice() {
            tell_fault(rt, note, reason_of(files, &note.fault));
        }
        if faults.more != 0 {
            let _ = eprintln!(rt; "fiorun: note: and {} faults more", faults.more);
        }
    }
}

fn tell_fault<R: Eprint>(rt: &R, note: &FaultNote, reason: Option<io::Error>) {
    let note = Escaped(note);
    let _ = match reason {
        Some(reason) => eprintln!(rt; "fiorun: note: {note}: {reason}"),
        None => eprintln!(rt; "fiorun: note: {note}"),
    };
}

/// Why the system refused each of the first faults, where it did and the files have kept that.
pub fn reasons_of(
    alloc: Global,
    files: &FileEngine<SharedFile>,
    faults: &Faults,
) -> Result<Vec<Option<String>>, AllocError>
    ensures { IfOk result (λ reasons. vec_len reasons ≡ vec_len faults.now.first) }
{
    let mut reasons = Vec::new(alloc);
    for note in faults.first.as_slice() {
        let reason = match reason_of(files, &note.fault) {
            Some(reason) => Some(format!(in alloc; "{reason}")?),
            None => None,
        };
        reasons.push(reason)?;
    }
    Ok(reasons)
}

// Why the system refused it, where it did and the files have kept that.
fn reason_of(files: &FileEngine<SharedFile>, fault: &Fault) -> Option<io::Error> {
    if fault.outcome != Outcome::Failed {
        return None;
    }
    let dir = match fault.kind {
        TicketKind::Read | TicketKind::Probe | TicketKind::ReadCheck => Dir::Read,
        TicketKind::Write => Dir::Write,
    };
    let piece = &fault.piece;
    let call = files.failed_call(piece.file, dir, piece.offset, piece.len)?;
    Some(call.error)
}

fn names_of(alloc: Global, plan: &Plan) -> Result<Vec<String>, AllocError> {
    let mut names = Vec::new(alloc);
    for file in plan.files() {
        names.push(String::from_str(alloc, file.name())?)?;
    }
    Ok(names)
}

// Whether any job of the plan checks what it reads.
fn has_checks(plan: &Plan) -> bool {
    for place in 0..plan.clones() {
        if plan.clone_at(place).verifies() {
            return true;
        }
    }
    false
}
