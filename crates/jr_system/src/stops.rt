// Why the program ends before its time, and what is worth knowing of it.
ghost use Rattle.std.specs.Prelude.{◌≡◌, ◌≢◌};
ghost use Rattle.std.specs.IoError.{error_kind};
ghost use Rattle.jr_cli_words.specs.Status.{status_of_fault};
ghost use Rattle.jr_system.specs.Stops.{files_fault};

use jr_after_plans::{AfterFault, after_fault_text};
use jr_cli_words::{CliFault, memory_or};
use jr_escape::Escaped;
use jr_io_files::{FileFault, Refusal};
use jr_job_notes::Note;
use jr_plan::Plan;
use jr_report_outputs::Unfit;
use std::alloc::Global;
use std::io;
use std::io::ErrorKind;
use std::marker::Model;

/// A fault, and what is said behind it where notes are wanted.
#[derive(Drop)]
pub struct Stop {
    fault: CliFault,
    notes: Notes,
}

#[derive(Drop)]
enum Notes {
    None,
    // What is said in place of the fault's own words.
    Text(Vec<u8>),
    Job(Vec<Note>),
    Files(Refusal),
    // The output that this word asks for can't go where its path leads.
    Output(&'static str, Unfit),
    Pipe,
    // This couldn't be done to the file of this name.
    File(&'static str, String, io::Error),
}

impl Model for Stop {
    ghost use Rattle.jr_cli_words.specs.declared.faults.CliFault.{CliFault};

    ghost Value = { CliFault };

    ghost view = { λ stop. stop.fault };
}

impl From<CliFault> for Stop {
    ghost use Rattle.std.specs.Prelude.{◌≡◌};

    ghost from_gives = { λ fault stop. stop ≡ fault };

    fn from(fault: CliFault) -> Stop {
        Stop {
            fault,
            notes: Notes::None,
        }
    }
}

impl Stop {
    /// A job file is refused.
    pub fn job(fault: CliFault, notes: Vec<Note>) -> Stop
        ensures { result ≡ fault }
    {
        Stop {
            fault,
            notes: Notes::Job(notes),
        }
    }

    /// The files of a job are refused.
    pub fn files(refusal: Refusal) -> Stop
        ensures { result ≡ files_fault refusal.fault }
    {
        match refusal.fault {
            FileFault::File(_) => Stop {
                fault: CliFault::Open,
                notes: Notes::Files(refusal),
            },
            FileFault::Memory => Stop::from(CliFault::Memory),
        }
    }

    /// The output that this word asks for can't go where its path leads.
    pub fn output(word: &'static str, why: Unfit) -> Stop
        ensures { result ≡ CliFault.Write }
    {
        Stop {
            fault: CliFault::Write,
            notes: Notes::Output(word, why),
        }
    }

    /// The pipe whose end would ask the run to stop can't be opened.
    pub fn pipe() -> Stop
        ensures { result ≡ CliFault.Open }
    {
        Stop {
            fault: CliFault::Open,
            notes: Notes::Pipe,
        }
    }

    /// The file of this path, which is to be written, can't be made.
    pub fn unmade(alloc: Global, path: &str, error: io::Error) -> Stop
        ensures memory { error_kind error ≡ ErrorKind.OutOfMemory → result ≡ CliFault.Memory }
        ensures other { error_kind error ≢ ErrorKind.OutOfMemory → result ≡ CliFault.Write }
    {
        Stop::at_path(alloc, CliFault::Write, "make", path, error)
    }

    /// The job file of this path can't be opened.
    pub fn unread_job(alloc: Global, path: &str, error: io::Error) -> Stop
        ensures memory { error_kind error ≡ ErrorKind.OutOfMemory → result ≡ CliFault.Memory }
        ensures other { error_kind error ≢ ErrorKind.OutOfMemory → result ≡ CliFault.Read }
    {
        Stop::at_path(alloc, CliFault::Read, "read", path, error)
    }

    /// The trace of this path can't be opened.
    pub fn unread_trace(alloc: Global, path: &str, error: io::Error) -> Stop
        ensures memory { error_kind error ≡ ErrorKind.OutOfMemory → result ≡ CliFault.Memory }
        ensures other { error_kind error ≢ ErrorKind.OutOfMemory → result ≡ CliFault.ReadTrace }
    {
        Stop::at_path(alloc, CliFault::ReadTrace, "read", path, error)
    }

    /// The ledger of this path can't be opened.
    pub fn unread_ledger(alloc: Global, path: &str, error: io::Error) -> Stop
        ensures memory { error_kind error ≡ ErrorKind.OutOfMemory → result ≡ CliFault.Memory }
        ensures other { error_kind error ≢ ErrorKind.OutOfMemory → result ≡ CliFault.ReadLedger }
    {
        Stop::at_path(alloc, CliFault::ReadLedger, "read", path, error)
    }

    /// What is to be written to the file of this path can't be.
    pub fn unwritten(alloc: Global, path: &str, error: io::Error) -> Stop
        ensures memory { error_kind error ≡ ErrorKind.OutOfMemory → result ≡ CliFault.Memory }
        ensures other { error_kind error ≢ ErrorKind.OutOfMemory → result ≡ CliFault.Write }
    {
        Stop::at_path(alloc, CliFault::Write, "write", path, error)
    }

    /// No ledger of the plan can be judged, for this fault: it is told by the name of its job.
    pub fn ledger_job(alloc: Global, plan: &Plan, fault: &AfterFault) -> Stop
        ensures { result ≡ CliFault.LedgerJob }
    {
        let notes = match after_fault_text(alloc, plan, fault) {
            Ok(text) => Notes::Text(text),
            Err(_) => Notes::None,
        };
        Stop {
            fault: CliFault::LedgerJob,
            notes,
        }
    }

    /// What was written to the file of this name can't be synced.
    pub fn unsynced(name: String, error: io::Error) -> Stop
        ensures { result ≡ CliFault.Write }
    {
        Stop::file(CliFault::Write, "sync", Some(name), error)
    }

    // This couldn't be done to the file of this path.
    fn at_path(
        alloc: Global,
        fault: CliFault,
        act: &'static str,
        path: &str,
        error: io::Error,
    ) -> Stop
        ensures memory { error_kind error ≡ ErrorKind.OutOfMemory → result ≡ CliFault.Memory }
        ensures other { error_kind error ≢ ErrorKind.OutOfMemory → result ≡ fault }
    {
        let name = String::from_str(alloc, path).ok();
        Stop::file(memory_or(&error, fault), act, name, error)
    }

    fn file(fault: CliFault, act: &'static str, name: Option<String>, error: io::Error) -> Stop
        ensures { result ≡ fault }
    {
        match name {
            Some(name) if fault != CliFault::Memory => Stop {
                fault,
                notes: Notes::File(act, name, error),
            },
            _ => Stop::from(fault),
        }
    }

    /// Says it on standard error, with the notes where they are wanted, and gives the exit status.
    pub fn tell<R: Eprint>(&self, rt: &R, has_notes: bool) -> u8
        ensures { result ≡ status_of_fault self.now }
    {
        self.tell_fault(rt);
        if has_notes {
            self.notes.tell(rt);
        }
        self.fault.status()
    }
}

impl Stop {
    // Says the fault itself.
    fn tell_fault<R: Eprint>(&self, rt: &R) {
        let _ = match &self.notes {
            Notes::Text(text) => {
                eprintln!(rt; "fiorun: {}", Escaped(&str::from_utf8(text).unwrap_or("")))
            }
            _ => eprintln!(rt; "fiorun: {}", self.fault),
        };
    }
}

impl Notes {
    fn tell<R: Eprint>(&self, rt: &R) {
        match self {
            Notes::None | Notes::Text(_) => {}
            Notes::Job(notes) => tell_notes(rt, notes.as_slice()),
            Notes::Files(refusal) => {
                let _ = eprintln!(rt; "fiorun: note: {}", Escaped(refusal));
            }
            Notes::File(act, name, error) => {
                let name = Escaped(name);
                let _ = eprintln!(rt; "fiorun: note: cannot {act} {name}: {error}");
            }
            Notes::Output(word, why) => {
                let _ = eprintln!(rt; "fiorun: note: the path of {word} is {why}");
            }
            Notes::Pipe => {
                let _ = eprintln!(rt; "fiorun: note: --stop-fd names no pipe that can be read");
            }
        }
    }
}

/// Says each of these notes on a line of its own.
pub fn tell_notes<R: Eprint>(rt: &R, notes: &[Note]) {
    for note in notes {
        let _ = eprintln!(rt; "fiorun: note: {}", Escaped(note));
    }
}
