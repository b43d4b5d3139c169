ghost use Rattle.std.specs.Prelude.{◌≡◌, false, IfOk, Some, pos};
ghost use Rattle.clap.specs.Words.{app_of, rule_of, with_rule, App};
ghost use Rattle.clap.specs.declared.builder.value_parser.ValueParser.TheVariants as parser;
ghost use Rattle.jr_cli_words.specs.CommandLine.{
  command_line,
  with_job_rules,
  with_run_rules,
  with_report_rules,
  with_round_rules,
  with_go_on_rules,
  with_adapt_rules,
  with_ledger_rules,
  flag_rule,
  job_rule,
  option_rule,
};

use crate::words::VERSION;
use clap::builder::ValueParser;
use clap::{Arg, ArgAction, Command, value_parser};
use std::alloc::{AllocError, Global};

/// What the command line may say.
pub(crate) fn command<'a>(alloc: Global) -> Result<Command<'a>, AllocError>
    ensures { IfOk result (λ command. app_of command ≡ command_line) }
{
    let command = Command::new(alloc, "fiorun")
        .version(VERSION)
        .about("Runs a fio job file and checks what was written.");
    let command = with_job_args(alloc, command)?;
    let command = with_run_args(alloc, command)?;
    let command = with_report_args(alloc, command)?;
    let command = with_round_args(alloc, command)?;
    let command = with_go_on_args(alloc, command)?;
    let command = with_adapt_args(alloc, command)?;
    with_ledger_args(alloc, command)
}

// The arguments for the job and its trace.
fn with_job_args<'a>(alloc: Global, command: Command<'a>) -> Result<Command<'a>, AllocError>
    ensures { IfOk result (λ made. app_of made ≡ with_job_rules (app_of command.entry)) }
{
    let command = added(Ok(command), job_arg(alloc));
    let command = with_value(
        alloc,
        command,
        "section",
        "NAME",
        "Only the jobs of this name",
    );
    let command = with_flag(
        alloc,
        command,
        "parse-only",
        "Print the plan and run nothing",
    );
    let command = with_number(
        alloc,
        command,
        "workers",
        "N",
        16,
        "How many I/Os are carried out at once, from 1 to 16",
    );
    let command = with_value(
        alloc,
        command,
        "trace",
        "FILE",
        "Where to write what happened, event by event",
    );
    with_value(
        alloc,
        command,
        "check-trace",
        "FILE",
        "Check this trace of the job and run nothing",
    )
}

// The arguments for how files are used, faults told and runs stopped.
fn with_run_args<'a>(alloc: Global, command: Command<'a>) -> Result<Command<'a>, AllocError>
    ensures { IfOk result (λ made. app_of made ≡ with_run_rules (app_of command.entry)) }
{
    let command = with_flag(
        alloc,
        Ok(command),
        "cached",
        "Sync no file before its checks",
    );
    let command = with_flag(
        alloc,
        command,
        "allow-mounted-write",
        "Write block devices that are mounted or in use otherwise",
    );
    let command = with_flag(
        alloc,
        command,
        "notes",
        "Say what a fault is about, also where standard error is no terminal",
    );
    let command = with_hidden(
        alloc,
        command,
        "drop-pipes",
        "PIPES",
        "Pipes to ask for cached pages to be dropped, as the launcher gives them",
    );
    let command = with_flag(
        alloc,
        command,
        "interrupted",
        "The trace to check may be that of a run that was stopped",
    );
    with_hidden(
        alloc,
        command,
        "stop-fd",
        "N",
        "A pipe, by its number: where its other end is closed, the run stops and reports",
    )
}

// The arguments for what else a run tells.
fn with_report_args<'a>(alloc: Global, command: Command<'a>) -> Result<Command<'a>, AllocError>
    ensures { IfOk result (λ made. app_of made ≡ with_report_rules (app_of command.entry)) }
{
    let command = with_value(
        alloc,
        Ok(command),
        "bad-blocks",
        "FILE",
        "Where to write the numbers of the blocks that came back wrong",
    );
    let command = with_value(
        alloc,
        command,
        "bad-blocks-size",
        "N",
        "How many bytes such a block has, a power of two from 512 to 65536 [default: 1024]",
    );
    let command = with_flag(
        alloc,
        command,
        "map",
        "Show where each file was bad or failed, also where standard output is no terminal",
    );
    let command = with_number(
        alloc,
        command,
        "progress",
        "SECONDS",
        86400,
        "Print each so many seconds how far the run is, from 1 to 86400",
    );
    let command = with_value(
        alloc,
        command,
        "json",
        "FILE",
        "Where to write the report as JSON",
    );
    with_value(
        alloc,
        command,
        "page",
        "FILE",
        "Where to write the report as a page for a browser",
    )
}

// The arguments for rounds of the job.
fn with_round_args<'a>(alloc: Global, command: Command<'a>) -> Result<Command<'a>, AllocError>
    ensures { IfOk result (λ made. app_of made ≡ with_round_rules (app_of command.entry)) }
{
    let command = with_value(
        alloc,
        Ok(command),
        "for",
        "DURATION",
        "Run the job again and again for so long, as 90s, 30m, 24h or 7d",
    );
    let command = with_number(
        alloc,
        command,
        "repeat",
        "N",
        4294967295,
        "Run the job N times, each time with other data",
    );
    let command = with_flag(
        alloc,
        command,
        "keep-going",
        "Go on also after a round in which something was bad or failed",
    );
    with_flag(
        alloc,
        command,
        "keep-traces",
        "Keep the trace of each round, in the trace's file with the round's number behind its name",
    )
}

// The arguments for going on after faults.
fn with_go_on_args<'a>(alloc: Global, command: Command<'a>) -> Result<Command<'a>, AllocError>
    ensures { IfOk result (λ made. app_of made ≡ with_go_on_rules (app_of command.entry)) }
{
    let command = with_flag(
        alloc,
        Ok(command),
        "go-on",
        "Go on after I/Os that fail with what is left of the job",
    );
    with_value(
        alloc,
        command,
        "bad-blocks-also",
        "K",
        "What that list has too: with faults the blocks of I/Os that failed",
    )
}

// The arguments for a job file that is adapted.
fn with_adapt_args<'a>(alloc: Global, command: Command<'a>) -> Result<Command<'a>, AllocError>
    ensures { IfOk result (λ made. app_of made ≡ with_adapt_rules (app_of command.entry)) }
{
    let command = with_flag(
        alloc,
        Ok(command),
        "adapt",
        "Print the job file as it has to be written here, and run nothing",
    );
    with_value(
        alloc,
        command,
        "size",
        "N",
        "With --adapt: the size of each job that has none, as 16m or 1g",
    )
}

// The arguments for a ledger, and for what is judged by one.
fn with_ledger_args<'a>(alloc: Global, command: Command<'a>) -> Result<Command<'a>, AllocError>
    ensures { IfOk result (λ made. app_of made ≡ with_ledger_rules (app_of command.entry)) }
{
    let command = with_value(
        alloc,
        Ok(command),
        "ledger",
        "FILE",
        "Where to write which writes ended and which syncs returned, as it happens",
    );
    let command = with_number(
        alloc,
        command,
        "sync-every",
        "N",
        4294967295,
        "Sync a file each time that so many of its writes have ended",
    );
    with_value(
        alloc,
        command,
        "after",
        "LEDGER",
        "Judge the files after a power cut by this ledger of the job, and run nothing",
    )
}

// With a flag of this name too, where nothing failed before. (A `?` behind each argument would be a way out for each, and slow to prove.)
fn with_flag<'a>(
    alloc: Global,
    command: Result<Command<'a>, AllocError>,
    name: &'a str,
    help: &'a str,
) -> Result<Command<'a>, AllocError>
    ensures { (app : App) → IfOk command.entry (λ before. app_of before ≡ app)
        → IfOk result (λ made. app_of made ≡ with_rule app (flag_rule name.entry.now)) }
{
    added(command, flag(alloc, name, help))
}

// With an option too that takes a value, which help shows by this word.
fn with_value<'a>(
    alloc: Global,
    command: Result<Command<'a>, AllocError>,
    name: &'a str,
    value: &'a str,
    help: &'a str,
) -> Result<Command<'a>, AllocError>
    ensures { (app : App) → IfOk command.entry (λ before. app_of before ≡ app)
        → IfOk result (λ made. app_of made ≡ with_rule app (option_rule name.entry.now)) }
{
    added(command, valued(alloc, name, value, help))
}

// With such an option too, which help doesn't show.
fn with_hidden<'a>(
    alloc: Global,
    command: Result<Command<'a>, AllocError>,
    name: &'a str,
    value: &'a str,
    help: &'a str,
) -> Result<Command<'a>, AllocError>
    ensures { (app : App) → IfOk command.entry (λ before. app_of before ≡ app)
        → IfOk result (λ made. app_of made ≡ with_rule app (option_rule name.entry.now)) }
{
    added(command, valued(alloc, name, value, help).hide(true))
}

// With an option too that takes a number, from 1 to the most.
fn with_number<'a>(
    alloc: Global,
    command: Result<Command<'a>, AllocError>,
    name: &'a str,
    value: &'a str,
    most: u32,
    help: &'a str,
) -> Result<Command<'a>, AllocError>
    ensures { (app : App) → IfOk command.entry (λ before. app_of before ≡ app)
        → IfOk result (λ made. app_of made
        ≡ with_rule app (record (option_rule name.entry.now) { parser = Some (parser.Signed (pos 1) (pos most)) })) }
{
    added(command, numbered(alloc, name, value, most, help))
}

// With one more argument, where none before it failed.
fn added<'a>(
    command: Result<Command<'a>, AllocError>,
    arg: Arg<'a>,
) -> Result<Command<'a>, AllocError>
    ensures { (app : App) → IfOk command.entry (λ before. app_of before ≡ app) → arg.entry.global ≡ false
        → IfOk result (λ made. app_of made ≡ with_rule app (rule_of arg.entry)) }
{
    command?.arg(arg)
}

fn job_arg<'a>(alloc: Global) -> Arg<'a>
    ensures rule { rule_of result ≡ job_rule }
    ensures local { result.global ≡ false }
{
    Arg::new(alloc, "job")
        .value_name("JOBFILE")
        .action(ArgAction::Set)
        .help("The job file; without it the job is read from standard input")
}

fn flag<'a>(alloc: Global, name: &'a str, help: &'a str) -> Arg<'a>
    ensures rule { rule_of result ≡ flag_rule name.entry.now }
    ensures local { result.global ≡ false }
{
    Arg::new(alloc, name)
        .long(name)
        .action(ArgAction::SetTrue)
        .value_parser(value_parser!(bool))
        .help(help)
}

fn valued<'a>(alloc: Global, name: &'a str, value: &'a str, help: &'a str) -> Arg<'a>
    ensures rule { rule_of result ≡ option_rule name.entry.now }
    ensures local { result.global ≡ false }
{
    Arg::new(alloc, name)
        .long(name)
        .value_name(value)
        .action(ArgAction::Set)
        .help(help)
}

fn numbered<'a>(alloc: Global, name: &'a str, value: &'a str, most: u32, help: &'a str) -> Arg<'a>
    ensures rule { rule_of result
        ≡ record (option_rule name.entry.now) { parser = Some (parser.Signed (pos 1) (pos most)) } }
    ensures local { result.global ≡ false }
{
    valued(alloc, name, value, help).value_parser(numbers_to(most))
}

// Takes numbers from 1 to the most.
fn numbers_to<'a>(most: u32) -> ValueParser<'a>
    ensures { result ≡ parser.Signed (pos 1) (pos most) }
{
    value_parser!(u32).range(1..=i64::from(most))
}
