ghost use Rattle.std.specs.Prelude.{◌≡◌, ◌⊎◌, ◌≤◌, ℕ, List, map, Ok, Err, IfOk, IfSome};
ghost use Rattle.clap.specs.Words.{app_of, fault_of, kind_of, FailsBy, HasMatchesOf, IsParsedFrom, matches_of};
ghost use Rattle.clap.specs.declared.builder.command.Command.{Command};
ghost use Rattle.jr_cli_words.specs.Status.{status_of_words};
ghost use Rattle.jr_cli_words.specs.CommandLine.{command_line, IsChoiceOf};

use crate::arguments::command;
use crate::faults::CliFault;
use clap::error::ErrorKind;
use clap::{ArgMatches, Error};
use jr_escape::{Escaped, EscapedLines};
use std::alloc::Global;
use std::convert::AsStr;

/// The program's version, and the logic that it is proved in: several kits have the same.
pub const VERSION: &str = "0.1.0\nlogic dac8208d650f15bf";

/// The version alone.
pub const RELEASE: &str = "0.1.0";

/// The sum of the program logic in which fiorun is proved.
pub const LOGIC: &str = "dac8208d650f15bf";

/// What the words of the command line ask for.
#[derive(Clone, Copy)]
pub struct Choice<'a> {
    /// The job file; standard input if none is named.
    pub job: Option<&'a str>,
    /// The name of the jobs to run; all if none is given.
    pub section: Option<&'a str>,
    /// Print the plan in place of running it.
    pub parse_only: bool,
    /// How many workers to run with, from 1 to 16.
    pub workers: Option<u32>,
    /// The file that the trace of the run goes to.
    pub trace: Option<&'a str>,
    /// The trace to check in place of a run.
    pub check_trace: Option<&'a str>,
    /// Let checks read what the system keeps of the files, and sync none before them.
    pub cached: bool,
    /// Write block devices that are in use.
    pub allow_mounted_write: bool,
    /// Say what a fault is about, also if standard error is no terminal.
    pub notes: bool,
    /// The pipes by which the launcher is asked to drop the cached pages of a file (`launcher/launch`).
    pub drop_pipes: Option<&'a str>,
    /// The trace to check may be that of a run that was stopped.
    pub interrupted: bool,
    /// The number of the open pipe whose end asks the run to stop.
    pub stop_fd: Option<&'a str>,
    /// The file that the list of the run's bad blocks goes to.
    pub bad_blocks: Option<&'a str>,
    /// How many bytes a block of that list has, in digits.
    pub bad_blocks_size: Option<&'a str>,
    /// Show a map of each file, also if standard output is no terminal.
    pub map: bool,
    /// Print how far the run is each so many seconds, from 1 to 86400.
    pub progress: Option<u32>,
    /// The file that the report goes to as JSON.
    pub json: Option<&'a str>,
    /// The file that the report goes to as a page for a browser.
    pub page: Option<&'a str>,
    /// How long to run the job again and again, as `90s`, `30m`, `24h` or `7d`.
    pub run_for: Option<&'a str>,
    /// How many times to run the job, at most.
    pub repeat: Option<u32>,
    /// Run the job again also after a round in which something was bad or failed.
    pub keep_going: bool,
    /// Keep the trace of each round, in a file of its own.
    pub keep_traces: bool,
    /// Run again what is left of clones that a fault halted.
    pub go_on: bool,
    /// What the list of bad blocks has beside them.
    pub bad_blocks_also: Option<&'a str>,
    /// Print the job file as it has to be written here, in place of running it.
    pub adapt: bool,
    /// The size of a job that has none, where the job file is adapted.
    pub size: Option<&'a str>,
    /// The file that the ledger of the run goes to.
    pub ledger: Option<&'a str>,
    /// After how many of its writes a file is synced.
    pub sync_every: Option<u32>,
    /// The ledger by which the files are judged after a power cut, in place of a run.
    pub after: Option<&'a str>,
}

/// Reads the words of the command line, of which the first is the program's name. Help and the version are
/// asked for by an error too, which says so.
pub fn choose<'a, S: AsStr>(alloc: Global, words: &'a [S]) -> Result<Choice<'a>, Error>
    ensures fields { IfOk result (λ choice. IsChoiceOf choice (matches_of command_line (map S.text words.entry.now))) }
    ensures workers { IfOk result (λ choice. IfSome choice.workers (λ n. (1 ≤ n) × (n ≤ 16))) }
    ensures progress { IfOk result (λ choice. IfSome choice.progress (λ n. (1 ≤ n) × (n ≤ 86400))) }
    ensures repeat { IfOk result (λ choice. IfSome choice.repeat (λ n. (1 ≤ n) × (n ≤ 4294967295))) }
    ensures sync_every { IfOk result (λ choice. IfSome choice.sync_every (λ n. (1 ≤ n) × (n ≤ 4294967295))) }
    // Refused exactly where clap's rules for these arguments refuse the words, and by their kind.
    ensures refused { FailsBy (fault_of command_line (map S.text words.entry.now)) result }
{
    let command = command(alloc)?;
    let matches = command.try_get_matches_from(words)?;
    Ok(choice_in(&matches))
}

// What the matches of the command line hold.
fn choice_in<'a>(matches: &ArgMatches<'a>) -> Choice<'a>
    ensures fields { (command : Command) → (words : List (List ℕ)) → app_of command ≡ command_line → IsParsedFrom command matches.now
        → HasMatchesOf (app_of command) words matches.now → IsChoiceOf result (matches_of command_line words) }
    ensures workers { (command : Command) → app_of command ≡ command_line → IsParsedFrom command matches.now
        → IfSome result.workers (λ n. (1 ≤ n) × (n ≤ 16)) }
    ensures progress { (command : Command) → app_of command ≡ command_line → IsParsedFrom command matches.now
        → IfSome result.progress (λ n. (1 ≤ n) × (n ≤ 86400)) }
    ensures repeat { (command : Command) → app_of command ≡ command_line → IsParsedFrom command matches.now
        → IfSome result.repeat (λ n. (1 ≤ n) × (n ≤ 4294967295)) }
    ensures sync_every { (command : Command) → app_of command ≡ command_line → IsParsedFrom command matches.now
        → IfSome result.sync_every (λ n. (1 ≤ n) × (n ≤ 4294967295)) }
{
    Choice {
        job: matches.get_str("job"),
        section: matches.get_str("section"),
        parse_only: matches.get_flag("parse-only"),
        workers: matches.get_one::<u32>("workers"),
        trace: matches.get_str("trace"),
        check_trace: matches.get_str("check-trace"),
        cached: matches.get_flag("cached"),
        allow_mounted_write: matches.get_flag("allow-mounted-write"),
        notes: matches.get_flag("notes"),
        drop_pipes: matches.get_str("drop-pipes"),
        interrupted: matches.get_flag("interrupted"),
        stop_fd: matches.get_str("stop-fd"),
        bad_blocks: matches.get_str("bad-blocks"),
        bad_blocks_size: matches.get_str("bad-blocks-size"),
        map: matches.get_flag("map"),
        progress: matches.get_one::<u32>("progress"),
        json: matches.get_str("json"),
        page: matches.get_str("page"),
        run_for: matches.get_str("for"),
        repeat: matches.get_one::<u32>("repeat"),
        keep_going: matches.get_flag("keep-going"),
        keep_traces: matches.get_flag("keep-traces"),
        go_on: matches.get_flag("go-on"),
        bad_blocks_also: matches.get_str("bad-blocks-also"),
        adapt: matches.get_flag("adapt"),
        size: matches.get_str("size"),
        ledger: matches.get_str("ledger"),
        sync_every: matches.get_one::<u32>("sync-every"),
        after: matches.get_str("after"),
    }
}

/// Prints what clap says of these words, which it refused, or the help or version that they ask for, and gives the
/// exit status.
pub fn answer_words<R: Print + Eprint, S: AsStr>(
    rt: &R,
    words: &[S],
    error: &Error,
) -> Result<u8, CliFault>
    ensures refused { status_of_words (kind_of error.now) ≡ 2 → result ≡ Ok 2 }
    ensures help { status_of_words (kind_of error.now) ≡ 0 → (result ≡ Ok 0) ⊎ (result ≡ Err CliFault.Write) }
    ensures memory { status_of_words (kind_of error.now) ≡ 3 → result ≡ Err CliFault.Memory }
{
    match error.kind() {
        ErrorKind::OutOfMemory => Err(CliFault::Memory),
        ErrorKind::DisplayHelp | ErrorKind::DisplayVersion => match rt.print(error) {
            Ok(()) => Ok(0),
            Err(_) => Err(CliFault::Write),
        },
        _ => {
            tell_refused(rt, words, error);
            Ok(2)
        }
    }
}

// Says on standard error why these words are refused: on one line if a word has a line break, since then nothing tells which are clap's.
fn tell_refused<R: Eprint, S: AsStr>(rt: &R, words: &[S], error: &Error) {
    // (nobody hears of a refusal that standard error doesn't take)
    let _printed = if words.iter().any(|word| word.as_str().contains('\n')) {
        eprintln!(rt; "{}", Escaped(error))
    } else {
        eprint!(rt; "{}", EscapedLines(error))
    };
    if words.iter().any(|word| is_of_job(word.as_str())) {
        let _ = eprintln!(rt;
            "\nfiorun: options of a job stand in a job file, one on each line:\n\n{EXAMPLE}"
        );
    }
}

// What a job file looks like.
const EXAMPLE: &str =
    "    [test]\n    filename=test.data\n    rw=write\n    size=16m\n    verify=md5";

// Options of a job that are often written as words.
const OF_JOBS: [&str; 9] = [
    "--name",
    "--rw",
    "--readwrite",
    "--filename",
    "--bs",
    "--ioengine",
    "--iodepth",
    "--numjobs",
    "--verify",
];

// Whether a word is an option of a job, as fio takes it.
fn is_of_job(word: &str) -> bool {
    let name = match word.split_once('=') {
        Some((name, _)) => name,
        None => word,
    };
    OF_JOBS.iter().any(|option| *option == name)
}
