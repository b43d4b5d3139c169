use crate::asserts::same;
use clap::error::ErrorKind;
use jr_cli::{Choice, answer_words, choose};
use std::process::Abort;
use std::test::Fail;

const NOTHING: Choice<'static> = Choice {
    job: None,
    section: None,
    parse_only: false,
    workers: None,
    trace: None,
    check_trace: None,
    cached: false,
    allow_mounted_write: false,
    notes: false,
    drop_pipes: None,
    interrupted: false,
    stop_fd: None,
    bad_blocks: None,
    bad_blocks_size: None,
    map: false,
    progress: None,
    json: None,
    page: None,
    run_for: None,
    repeat: None,
    keep_going: false,
    keep_traces: false,
    go_on: false,
    bad_blocks_also: None,
    adapt: false,
    size: None,
    ledger: None,
    sync_every: None,
    after: None,
};

// Fails the test where the two ask for different things.
fn same_choice(rt: &impl Abort, found: &Choice<'_>, wanted: &Choice<'_>) {
    same_files(rt, found, wanted);
    same_texts(rt, found, wanted);
    same_flags(rt, found, wanted);
    same_numbers(rt, found, wanted);
}

fn same_files(rt: &impl Abort, found: &Choice<'_>, wanted: &Choice<'_>) {
    same(rt, found.job, wanted.job);
    same(rt, found.trace, wanted.trace);
    same(rt, found.check_trace, wanted.check_trace);
    same(rt, found.bad_blocks, wanted.bad_blocks);
    same(rt, found.json, wanted.json);
    same(rt, found.page, wanted.page);
    same(rt, found.ledger, wanted.ledger);
    same(rt, found.after, wanted.after);
}

fn same_texts(rt: &impl Abort, found: &Choice<'_>, wanted: &Choice<'_>) {
    same(rt, found.section, wanted.section);
    same(rt, found.drop_pipes, wanted.drop_pipes);
    same(rt, found.stop_fd, wanted.stop_fd);
    same(rt, found.bad_blocks_size, wanted.bad_blocks_size);
    same(rt, found.run_for, wanted.run_for);
    same(rt, found.bad_blocks_also, wanted.bad_blocks_also);
    same(rt, found.size, wanted.size);
}

fn same_flags(rt: &impl Abort, found: &Choice<'_>, wanted: &Choice<'_>) {
    same(rt, found.parse_only, wanted.parse_only);
    same(rt, found.cached, wanted.cached);
    same(rt, found.allow_mounted_write, wanted.allow_mounted_write);
    same(rt, found.notes, wanted.notes);
    same(rt, found.interrupted, wanted.interrupted);
    same(rt, found.map, wanted.map);
    same(rt, found.keep_going, wanted.keep_going);
    same(rt, found.keep_traces, wanted.keep_traces);
    same(rt, found.go_on, wanted.go_on);
    same(rt, found.adapt, wanted.adapt);
}

fn same_numbers(rt: &impl Abort, found: &Choice<'_>, wanted: &Choice<'_>) {
    same(rt, found.workers, wanted.workers);
    same(rt, found.progress, wanted.progress);
    same(rt, found.repeat, wanted.repeat);
    same(rt, found.sync_every, wanted.sync_every);
}

#[test]
fn each_word_goes_to_its_field(rt: HostRuntime) -> Result<(), Fail> {
    let words = [
        "fiorun",
        "--workers=16",
        "disk.fio",
        "--parse-only",
        "--section=w",
        "--trace=t",
        "--check-trace=c",
        "--cached",
        "--allow-mounted-write",
        "--notes",
        "--drop-pipes=3:4",
        "--interrupted",
        "--stop-fd=5",
        "--bad-blocks=l",
        "--bad-blocks-size=4096",
        "--map",
        "--progress=86400",
        "--json=j",
        "--page=p",
        "--for=90s",
        "--repeat=4294967295",
        "--keep-going",
        "--keep-traces",
        "--go-on",
        "--bad-blocks-also=k",
        "--adapt",
        "--size=16m",
        "--ledger=g",
        "--sync-every=4294967295",
        "--after=a",
    ];
    let want = Choice {
        job: Some("disk.fio"),
        section: Some("w"),
        parse_only: true,
        workers: Some(16),
        trace: Some("t"),
        check_trace: Some("c"),
        cached: true,
        allow_mounted_write: true,
        notes: true,
        drop_pipes: Some("3:4"),
        interrupted: true,
        stop_fd: Some("5"),
        bad_blocks: Some("l"),
        bad_blocks_size: Some("4096"),
        map: true,
        progress: Some(86400),
        json: Some("j"),
        page: Some("p"),
        run_for: Some("90s"),
        repeat: Some(4294967295),
        keep_going: true,
        keep_traces: true,
        go_on: true,
        bad_blocks_also: Some("k"),
        adapt: true,
        size: Some("16m"),
        ledger: Some("g"),
        sync_every: Some(4294967295),
        after: Some("a"),
    };
    same_choice(&rt, &choose(rt.alloc(), &words)?, &want);
    Ok(())
}

#[test]
fn words_may_be_left_out(rt: HostRuntime) -> Result<(), Fail> {
    same_choice(&rt, &choose(rt.alloc(), &["fiorun"])?, &NOTHING);
    let words = ["fiorun", "--workers", "1", "--section", ""];
    let want = Choice {
        section: Some(""),
        workers: Some(1),
        ..NOTHING
    };
    same_choice(&rt, &choose(rt.alloc(), &words)?, &want);
    Ok(())
}

// Is the word refused by this kind of error, which ends the program so?
fn assert_refused(
    rt: &(impl AllocGlobal + Abort + Print + Eprint),
    word: &str,
    kind: ErrorKind,
    status: u8,
) -> Result<(), Fail> {
    let words = ["fiorun", word];
    match choose(rt.alloc(), &words) {
        Ok(_) => Err(Fail::from("a refused word is taken")),
        Err(error) => {
            same(rt, (word, error.kind()), (word, kind));
            same(
                rt,
                (word, answer_words(rt, &words, &error)),
                (word, Ok(status)),
            );
            Ok(())
        }
    }
}

#[test]
fn words_are_refused_by_their_kind(rt: HostRuntime) -> Result<(), Fail> {
    let value = ErrorKind::ValueValidation;
    assert_refused(&rt, "--workers=0", value, 2)?;
    assert_refused(&rt, "--workers=17", value, 2)?;
    assert_refused(&rt, "--workers=-1", value, 2)?;
    assert_refused(&rt, "--workers=two", value, 2)?;
    assert_refused(&rt, "--progress=0", value, 2)?;
    assert_refused(&rt, "--progress=86401", value, 2)?;
    assert_refused(&rt, "--progress=1.5", value, 2)?;
    assert_refused(&rt, "--repeat=0", value, 2)?;
    assert_refused(&rt, "--repeat=4294967296", value, 2)?;
    assert_refused(&rt, "--nosuch", ErrorKind::UnknownArgument, 2)?;
    assert_refused(&rt, "--workers", ErrorKind::InvalidValue, 2)?;
    assert_refused(&rt, "--parse-only=1", ErrorKind::TooManyValues, 2)?;
    assert_refused(&rt, "--help", ErrorKind::DisplayHelp, 0)?;
    assert_refused(&rt, "--version", ErrorKind::DisplayVersion, 0)
}
