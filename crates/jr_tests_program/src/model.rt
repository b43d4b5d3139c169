use crate::asserts::same;
use jr_model::{
    Expected, Method, Pattern, Piece, ReplyBytes, Ticket, TicketKind, VerifyKind, WriteId, overlaps,
};
use std::process::Abort;
use std::test::Fail;

fn piece(file: u32, offset: u64, len: u32) -> Piece {
    Piece { file, offset, len }
}

// Is this whether both pieces share a byte, from either side?
fn assert_overlap(rt: &impl Abort, a: Piece, b: Piece, want: bool) {
    same(rt, overlaps(&a, &b), want);
    same(rt, overlaps(&b, &a), want);
}

#[test]
fn pieces_overlap_where_they_share_a_byte(rt: HostRuntime) {
    let written = piece(0, 4096, 4096);
    assert_overlap(&rt, written, piece(0, 0, 4096), false);
    assert_overlap(&rt, written, piece(0, 0, 4097), true);
    assert_overlap(&rt, written, piece(0, 8191, 1), true);
    assert_overlap(&rt, written, piece(0, 8192, 1), false);
    assert_overlap(&rt, written, piece(1, 4096, 4096), false);
    assert_overlap(&rt, written, piece(0, 5000, 0), false);
    assert_overlap(&rt, written, piece(0, u64::MAX, u32::MAX), false);
}

// A write of two blocks, with nothing expected.
fn write_of(pattern: Pattern) -> Ticket {
    Ticket {
        id: 0,
        worker: 0,
        kind: TicketKind::Write,
        write: WriteId {
            clone: 0,
            pass: 0,
            number: 0,
        },
        piece: piece(0, 512, 1024),
        seed: 7,
        method: Method {
            kind: VerifyKind::Pattern,
            pattern: Some(pattern),
            interval: 0,
        },
        expected: Expected::Nothing,
    }
}

fn placed(mut ticket: Ticket, offset: u64, len: u32) -> Ticket {
    ticket.piece = piece(0, offset, len);
    ticket
}

fn expecting(mut ticket: Ticket, kind: TicketKind, expected: Expected) -> Ticket {
    ticket.kind = kind;
    ticket.expected = expected;
    ticket
}

fn verified(mut ticket: Ticket, kind: VerifyKind) -> Ticket {
    ticket.method = Method {
        kind,
        pattern: None,
        interval: 0,
    };
    ticket
}

fn in_pass(mut ticket: Ticket, pass: u32) -> Ticket {
    ticket.write.pass = pass;
    ticket
}

fn assert_fits(rt: &impl Abort, ticket: Ticket, want: bool) {
    same(rt, ticket.fits(), want);
}

#[test]
fn tickets_fit_in_whole_blocks(rt: HostRuntime) -> Result<(), Fail> {
    let write = write_of(Pattern::new(&[1, 2]).ok_or("a pattern")?);
    assert_fits(&rt, placed(write, 512, 1024), true);
    assert_fits(&rt, placed(write, 512, 0), false);
    assert_fits(&rt, placed(write, 512, 700), false);
    assert_fits(&rt, placed(write, 100, 512), false);
    assert_fits(&rt, placed(write, 0, 16_777_216), true);
    assert_fits(&rt, placed(write, 0, 16_777_728), false);
    assert_fits(&rt, placed(write, 1 << 50, 512), false);
    assert_fits(&rt, placed(write, (1 << 50) - 512, 512), true);
    assert_fits(&rt, in_pass(write, 999), true);
    assert_fits(&rt, in_pass(write, 1000), false);
    Ok(())
}

#[test]
fn tickets_expect_what_their_method_is_judged_by(rt: HostRuntime) -> Result<(), Fail> {
    let pattern = Expected::Pattern(Pattern::new(&[1, 2]).ok_or("a pattern")?);
    let other = Expected::Pattern(Pattern::new(&[1, 3]).ok_or("a pattern")?);
    let header = Expected::Header([9; 64]);
    let write = write_of(Pattern::new(&[1, 2]).ok_or("a pattern")?);
    let probe = expecting(write, TicketKind::Probe, pattern);
    assert_fits(&rt, probe, true);
    let written = expecting(write, TicketKind::Write, pattern);
    assert_fits(&rt, written, false);
    let wrong = expecting(write, TicketKind::Probe, other);
    assert_fits(&rt, wrong, false);
    let blank = expecting(write, TicketKind::Probe, Expected::Nothing);
    assert_fits(&rt, blank, false);
    let headed = expecting(write, TicketKind::Probe, header);
    assert_fits(&rt, headed, false);
    assert_fits(&rt, verified(headed, VerifyKind::Md5), true);
    assert_fits(&rt, verified(headed, VerifyKind::Plain), false);
    assert_fits(&rt, verified(write, VerifyKind::Pattern), false);
    Ok(())
}

// A write of 1024 bytes with md5 and headers at this interval.
fn cut(write: Ticket, interval: u32) -> Ticket {
    let mut ticket = verified(write, VerifyKind::Md5);
    ticket.method.interval = interval;
    ticket
}

#[test]
fn tickets_are_cut_into_whole_chunks(rt: HostRuntime) -> Result<(), Fail> {
    let write = write_of(Pattern::new(&[1, 2]).ok_or("a pattern")?);
    for (interval, want) in [(512, true), (1024, true), (1536, false), (256, false)] {
        assert_fits(&rt, cut(write, interval), want);
    }
    let probe = expecting(cut(write, 512), TicketKind::Probe, Expected::Seed(7));
    assert_fits(&rt, probe, true);
    assert_fits(&rt, cut(probe, 0), false);
    let headed = expecting(probe, TicketKind::Probe, Expected::Header([9; 64]));
    assert_fits(&rt, headed, false);
    assert_fits(&rt, cut(headed, 0), true);
    let read = expecting(cut(write, 100), TicketKind::Read, Expected::Nothing);
    assert_fits(&rt, read, true);
    Ok(())
}

#[test]
fn patterns_have_a_byte_at_least(rt: HostRuntime) -> Result<(), Fail> {
    let pattern = Pattern::new(&[1, 2]).ok_or("a pattern")?;
    same(&rt, pattern.as_slice(), [1, 2].as_slice());
    same(&rt, Pattern::new(&[]).is_none(), true);
    Ok(())
}

// Do the bytes give themselves back?
fn assert_bytes(rt: &impl Abort, bytes: ReplyBytes, want: &[u8]) {
    same(rt, bytes.as_slice(), want);
    same(rt, bytes.into_vec().as_slice(), want);
}

#[test]
fn reply_bytes_give_themselves_back(rt: HostRuntime) -> Result<(), Fail> {
    let bytes = Vec::from_array(rt.alloc(), [1, 0])?;
    assert_bytes(&rt, ReplyBytes::new(bytes), &[1, 0]);
    Ok(())
}

// The laws are functions that do nothing: a crate that needs one calls it, and has it from then on.
#[test]
fn laws_can_be_called() {
    jr_model::choice_may_happen();
    jr_model::legal_goes_on();
    jr_model::front_is_legal();
    jr_model::every_run_is_legal();
    jr_model::serial_is_legal();
    jr_model::verdict_is_of_its_kind();
    jr_model::own_verdict_is_of_its_kind();
    jr_options::files_are_asked();
    jr_options::low_is_least();
    jr_options::high_is_greatest();
}
