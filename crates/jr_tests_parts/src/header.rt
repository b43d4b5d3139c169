// What a write puts into its blocks, and what is said of bytes that a check read.
use crate::asserts::same;
use crate::plans::memory_of;
use jr_engines::{Engine, ScriptedEngine};
use jr_header::{Served, fill, room_for, rule, serve};
use jr_model::{
    Expected, LARGEST_BLOCK, Method, Part, Pattern, Piece, Reply, ReplyBytes, SECTOR, Ticket,
    TicketKind, Verdict, VerifyKind, What, WriteId,
};
use sha2::{Digest, Sha256};
use std::alloc::Global;
use std::process::Abort;
use std::test::Fail;

// A write of draw 11 of clone 3 in pass 7, at 2^40 bytes, whose filler has the seed 42. An empty pattern stands for none.
fn a_write(kind: VerifyKind, pattern: &[u8], len: u32) -> Ticket {
    Ticket {
        id: 0,
        worker: 0,
        kind: TicketKind::Write,
        write: WriteId {
            clone: 3,
            pass: 7,
            number: 11,
        },
        piece: Piece {
            file: 0,
            offset: 1 << 40,
            len,
        },
        seed: 42,
        method: Method {
            kind,
            pattern: Pattern::new(pattern),
            interval: 0,
        },
        expected: Expected::Nothing,
    }
}

// This ticket with a header at each interval.
fn in_chunks(mut ticket: Ticket, interval: u32) -> Ticket {
    ticket.method.interval = interval;
    ticket
}

// The block of a write, and what its check is judged by.
fn filled(alloc: Global, ticket: &Ticket) -> Result<(Vec<u8>, Expected), Fail> {
    let mut block = room_for(alloc, ticket)?;
    let method = &ticket.method;
    if !ticket.fits() || !method.kind.fits_interval(method.interval, ticket.piece.len) {
        return Err(Fail::from("a ticket that fits"));
    }
    let expected = fill(ticket, block.as_mut_slice());
    Ok((block, expected))
}

// Whether the block begins with these bytes, and what it is judged by is its own beginning.
fn is_begun(block: &[u8], begin: &[u8], expected: &Expected) -> bool {
    match expected {
        Expected::Header(header) => block.starts_with(begin) && block.starts_with(header),
        Expected::Pattern(pattern) => block.starts_with(begin)
            && begin.starts_with(pattern.as_slice()),
        Expected::Seed(seed) => block.starts_with(begin) && *seed == 42,
        Expected::Nothing => false,
    }
}

// The first bytes were written by hand from the header's layout.
#[test]
fn a_header_says_who_wrote_what_and_where(rt: HostRuntime) -> Result<(), Fail> {
    let mut ticket = a_write(VerifyKind::Md5, &[], 4096);
    ticket.write = WriteId {
        clone: 0,
        pass: 1,
        number: 2,
    };
    ticket.piece.offset = 8192;
    let begin: [u8; 32] = [
        0x4a, 0x52, 0x56, 0x31, 1, 16, 1, 0, 0, 0x10, 0, 0, 0, 0, 0, 0, 0, 0x20, 0, 0, 0, 0, 0, 0,
        2, 0, 0, 0, 0, 0, 0, 0,
    ];
    let (block, expected) = filled(rt.alloc(), &ticket)?;
    same(&rt, is_begun(&block, &begin, &expected), true);
    Ok(())
}

// The bytes behind the header's first half are the MD5 of 960 bytes of the generator, seeded by 43, as Python's hashlib has it.
#[test]
fn a_chunk_has_a_header_of_its_own(rt: HostRuntime) -> Result<(), Fail> {
    let mut ticket = in_chunks(a_write(VerifyKind::Md5, &[], 4096), 1024);
    ticket.write = WriteId {
        clone: 0,
        pass: 1,
        number: 2,
    };
    ticket.piece.offset = 8192;
    let begin: [u8; 48] = [
        0x4a, 0x52, 0x56, 0x32, 1, 16, 1, 0, 0, 4, 0, 0, 0, 0, 0, 0, 0, 0x24, 0, 0, 0, 0, 0, 0, 2,
        0, 0, 0, 0, 0, 0, 0, 0x7e, 0xa8, 0xbc, 0x92, 0xf1, 0x64, 0x49, 0xd6, 0x37, 0xd0, 0xee,
        0x41, 0x50, 0xf7, 0xc6, 0xf3,
    ];
    let (block, expected) = filled(rt.alloc(), &ticket)?;
    let second = block.get(1024..).ok_or("a second chunk")?;
    same(&rt, is_begun(second, &begin, &expected), true);
    Ok(())
}

#[test]
fn a_pattern_is_repeated_from_the_first_byte(rt: HostRuntime) -> Result<(), Fail> {
    let ticket = a_write(VerifyKind::Pattern, &[0x0a, 0xbc], 512);
    let begin: [u8; 5] = [0x0a, 0xbc, 0x0a, 0xbc, 0x0a];
    let (block, expected) = filled(rt.alloc(), &ticket)?;
    same(&rt, is_begun(&block, &begin, &expected), true);
    same(&rt, block.last().copied(), Some(0xbc));
    Ok(())
}

// The first 8 bytes of the SHA-256 of a whole block.
fn digest_of(block: &[u8]) -> u64 {
    let [a, b, c, d, e, f, g, h, ..] = Sha256::digest(block);
    u64::from_be_bytes([a, b, c, d, e, f, g, h])
}

// Has the block of a write this digest?
fn assert_digest(rt: &impl Abort, alloc: Global, ticket: &Ticket, digest: u64) -> Result<(), Fail> {
    let (block, _) = filled(alloc, ticket)?;
    let kind = ticket.method.kind;
    same(rt, (kind, digest_of(block.as_slice())), (kind, digest));
    Ok(())
}

// The digests are those of a Python program with hashlib and a generator of its own, written from the
// authors' C code of SplitMix64 and Xoshiro256++.
#[test]
fn blocks_are_those_of_the_reference(rt: HostRuntime) -> Result<(), Fail> {
    let (plain, pattern) = (VerifyKind::Plain, VerifyKind::Pattern);
    let (md5, sha1, sha256) = (VerifyKind::Md5, VerifyKind::Sha1, VerifyKind::Sha256);
    let (none, three): (&[u8], &[u8]) = (&[], &[0x61, 0x62, 0x63]);
    let blocks = [
        (a_write(plain, none, 512), 0x0009_28d5_0566_8570),
        (a_write(plain, three, 4096), 0x35df_7542_580c_3c4d),
        (a_write(pattern, three, 512), 0x08bb_fae4_2dca_e792),
        (a_write(pattern, three, 4096), 0x35df_7542_580c_3c4d),
        (
            a_write(pattern, three, LARGEST_BLOCK),
            0xed51_1652_7f7d_3675,
        ),
        (a_write(md5, none, 512), 0x9bcd_2bf4_40cf_4413),
        (a_write(md5, three, 4096), 0xf6e9_fe73_656f_2ab1),
        (a_write(md5, none, LARGEST_BLOCK), 0x1f25_5f6a_d4dd_ff8c),
        (a_write(sha1, none, 512), 0x3cf7_e6b9_421d_c3a5),
        (a_write(sha1, three, 4096), 0x3b05_925d_cc6b_412d),
        (a_write(sha1, none, LARGEST_BLOCK), 0x6cd8_a324_4cb2_497f),
        (a_write(sha256, none, 512), 0x3661_ca88_eb9c_c150),
        (a_write(sha256, three, 4096), 0xdcec_ee82_5fc8_3490),
        (a_write(sha256, none, LARGEST_BLOCK), 0xf3a1_f5ad_7137_16c0),
        (
            in_chunks(a_write(md5, none, 4096), 1024),
            0xc5b8_9ec5_8941_6327,
        ),
        (
            in_chunks(a_write(sha1, three, 4096), 512),
            0x420f_36fe_a6d0_d3c5,
        ),
        (
            in_chunks(a_write(sha256, none, 8192), 4096),
            0xb25e_4cfd_170f_5261,
        ),
        (
            in_chunks(a_write(sha256, three, 4096), 4096),
            0xbdf3_e0d9_21b4_27a5,
        ),
    ];
    for (ticket, digest) in blocks {
        assert_digest(&rt, rt.alloc(), &ticket, digest)?;
    }
    Ok(())
}

// A memory of a block, whose calls have the replies that are set for them.
fn memory_for(alloc: Global, len: u32) -> Result<ScriptedEngine, Fail> {
    let memory = memory_of(alloc, len / SECTOR)?;
    Ok(ScriptedEngine::new(memory, Vec::new(alloc)))
}

// Carries out a ticket by this reply.
fn carried_out(
    alloc: Global,
    engine: &mut ScriptedEngine,
    ticket: &Ticket,
    reply: Reply,
) -> Result<Served, Fail> {
    let buffer = room_for(alloc, ticket)?;
    engine.set_next(reply);
    if !ticket.fits() || engine.calls() > 99 {
        return Err(Fail::from("a ticket that fits"));
    }
    Ok(serve(engine, *ticket, buffer))
}

// The verdict on a check, which is of its own ticket.
fn verdict_on(check: &Served) -> Result<Verdict, Fail> {
    if !check.to_judge() {
        return Err(Fail::from("a check that ended whole"));
    }
    let ruling = rule(check);
    if ruling.served().ticket() != check.ticket() {
        return Err(Fail::from("the verdict of this check"));
    }
    Ok(ruling.verdict())
}

// A write at the file's first byte.
fn at_start(kind: VerifyKind, pattern: &[u8], len: u32) -> Ticket {
    let mut ticket = a_write(kind, pattern, len);
    ticket.piece.offset = 0;
    ticket
}

// The check of a write, judged by this.
fn check_of(ticket: &Ticket, expected: &Expected) -> Ticket {
    let mut check = *ticket;
    check.kind = TicketKind::Probe;
    check.expected = *expected;
    check
}

// What is said of a write where the replies to it and to its check are these.
fn verdict_by(
    alloc: Global,
    ticket: &Ticket,
    to_write: Reply,
    to_check: Reply,
) -> Result<Verdict, Fail> {
    let mut engine = memory_for(alloc, ticket.piece.len)?;
    let written = carried_out(alloc, &mut engine, ticket, to_write)?;
    let check = check_of(ticket, written.expected());
    let read = carried_out(alloc, &mut engine, &check, to_check)?;
    verdict_on(&read)
}

// Is this what is said of a check that reads the byte at this place the other way round?
fn assert_flipped(
    rt: &impl Abort,
    alloc: Global,
    ticket: &Ticket,
    place: u32,
    what: What,
) -> Result<(), Fail> {
    let (kind, len) = (ticket.method.kind, ticket.piece.len);
    let found = verdict_by(alloc, ticket, Reply::Pass, Reply::Flip(place))?;
    let wanted = Verdict::Bad(what);
    same(rt, (kind, len, place, found), (kind, len, place, wanted));
    Ok(())
}

// Is what is wrong first named, and a write that was dropped by its header?
fn assert_named(rt: &impl Abort, alloc: Global, ticket: &Ticket) -> Result<(), Fail> {
    assert_flipped(rt, alloc, ticket, 20, What::Header)?;
    assert_flipped(rt, alloc, ticket, 40, What::Digest)?;
    assert_flipped(rt, alloc, ticket, 100, What::DataArea)?;
    let good = verdict_by(alloc, ticket, Reply::Pass, Reply::Pass)?;
    let dropped = verdict_by(alloc, ticket, Reply::Drop, Reply::Pass)?;
    let wanted = (Verdict::Good, Verdict::Bad(What::Header));
    same(rt, (good, dropped), wanted);
    Ok(())
}

#[test]
fn what_is_wrong_first_is_named(rt: HostRuntime) -> Result<(), Fail> {
    for kind in [VerifyKind::Md5, VerifyKind::Sha1, VerifyKind::Sha256] {
        for len in [512, 4096, LARGEST_BLOCK] {
            assert_named(&rt, rt.alloc(), &at_start(kind, &[], len))?;
        }
    }
    Ok(())
}

// Is a byte that was inverted named by its chunk, in chunks of 1024 bytes?
fn assert_named_in_chunk(rt: &impl Abort, alloc: Global, ticket: &Ticket) -> Result<(), Fail> {
    let parts = [
        (1044, What::Chunk(1, Part::Header)),
        (1064, What::Chunk(1, Part::Digest)),
        (1124, What::Chunk(1, Part::DataArea)),
        (4095, What::Chunk(3, Part::DataArea)),
    ];
    for (place, what) in parts {
        assert_flipped(rt, alloc, ticket, place, what)?;
    }
    let good = verdict_by(alloc, ticket, Reply::Pass, Reply::Pass)?;
    let dropped = verdict_by(alloc, ticket, Reply::Drop, Reply::Pass)?;
    let wanted = (Verdict::Good, Verdict::Bad(What::Chunk(0, Part::Header)));
    same(rt, (good, dropped), wanted);
    Ok(())
}

#[test]
fn the_first_chunk_that_is_wrong_is_named(rt: HostRuntime) -> Result<(), Fail> {
    let patterns: [&[u8]; 2] = [&[], &[0x61, 0x62, 0x63]];
    for kind in [VerifyKind::Md5, VerifyKind::Sha1, VerifyKind::Sha256] {
        for pattern in patterns {
            let ticket = in_chunks(at_start(kind, pattern, 4096), 1024);
            assert_named_in_chunk(&rt, rt.alloc(), &ticket)?;
            let (mut block, expected) = filled(rt.alloc(), &ticket)?;
            put_sevens(&mut block, 3100, 3101);
            put_sevens(&mut block, 2088, 2089);
            let found = verdict_over(rt.alloc(), &ticket, &expected, &block)?;
            same(&rt, found, Verdict::Bad(What::Chunk(2, Part::Digest)));
        }
    }
    Ok(())
}

// What is said of a write where its check reads these bytes, and is judged by this.
fn verdict_over(
    alloc: Global,
    ticket: &Ticket,
    expected: &Expected,
    bytes: &[u8],
) -> Result<Verdict, Fail> {
    let mut engine = memory_for(alloc, ticket.piece.len)?;
    let check = check_of(ticket, expected);
    let reply = Reply::Bytes(ReplyBytes::new(bytes.to_vec(alloc)?));
    let read = carried_out(alloc, &mut engine, &check, reply)?;
    verdict_on(&read)
}

// Puts sevens from a place up to another.
fn put_sevens(bytes: &mut [u8], from: usize, to: usize) {
    for byte in bytes.iter_mut().take(to).skip(from) {
        *byte = 7;
    }
}

// A header with sevens behind the digest.
fn with_sevens(expected: Expected) -> Expected {
    let Expected::Header(mut header) = expected else {
        return expected;
    };
    header[52..].copy_from_slice(&[7; 12]);
    Expected::Header(header)
}

// What is said of a block by a header with sevens behind its digest: of the block as it was written, of one with that header, and
// of one whose next byte is a seven too.
fn verdicts_by_sevens(alloc: Global, ticket: &Ticket) -> Result<[Verdict; 3], Fail> {
    let (mut block, expected) = filled(alloc, ticket)?;
    let expected = with_sevens(expected);
    let as_written = verdict_over(alloc, ticket, &expected, &block)?;
    put_sevens(&mut block, 52, 64);
    let with_header = verdict_over(alloc, ticket, &expected, &block)?;
    put_sevens(&mut block, 64, 65);
    let behind = verdict_over(alloc, ticket, &expected, &block)?;
    Ok([as_written, with_header, behind])
}

// A ticket made by hand may have other bytes than zeros behind the digest in its header.
#[test]
fn what_stands_behind_the_digest_is_free(rt: HostRuntime) -> Result<(), Fail> {
    let wanted = [
        Verdict::Bad(What::Digest),
        Verdict::Good,
        Verdict::Bad(What::DataArea),
    ];
    for kind in [VerifyKind::Md5, VerifyKind::Sha1] {
        let found = verdicts_by_sevens(rt.alloc(), &at_start(kind, &[], 512))?;
        same(&rt, found, wanted);
    }
    Ok(())
}

// What is said of a write where its check reads the block of the next one.
fn verdict_on_another(alloc: Global, ticket: &Ticket) -> Result<Verdict, Fail> {
    let (_, expected) = filled(alloc, ticket)?;
    let mut other = *ticket;
    other.write.number = 12;
    let (block, _) = filled(alloc, &other)?;
    verdict_over(alloc, ticket, &expected, &block)
}

#[test]
fn the_block_of_another_write_is_wrong(rt: HostRuntime) -> Result<(), Fail> {
    for kind in [VerifyKind::Md5, VerifyKind::Sha1, VerifyKind::Sha256] {
        let found = verdict_on_another(rt.alloc(), &at_start(kind, &[], 4096))?;
        same(&rt, found, Verdict::Bad(What::Header));
    }
    Ok(())
}

// A read of a write's piece, of a job that checks its reads by this kind.
fn read_of(ticket: &Ticket, kind: VerifyKind) -> Ticket {
    let mut read = *ticket;
    read.kind = TicketKind::ReadCheck;
    read.method.kind = kind;
    read.expected = Expected::Nothing;
    read
}

// What is said of a read of a write, by what its bytes say of themselves.
fn own_verdict(
    alloc: Global,
    ticket: &Ticket,
    kind: VerifyKind,
    reply: Reply,
) -> Result<Verdict, Fail> {
    let mut engine = memory_for(alloc, ticket.piece.len)?;
    let written = carried_out(alloc, &mut engine, ticket, Reply::Pass)?;
    let read = carried_out(alloc, &mut engine, &read_of(written.ticket(), kind), reply)?;
    verdict_on(&read)
}

// Is this what is said of a read of the same kind, with the byte at this place the other way round; and are bytes of another kind
// told by their first header?
fn assert_own(
    rt: &impl Abort,
    alloc: Global,
    ticket: &Ticket,
    flips: &[(u32, Verdict)],
    of_another: What,
) -> Result<(), Fail> {
    for (place, wanted) in flips {
        let found = own_verdict(alloc, ticket, VerifyKind::Md5, Reply::Flip(*place))?;
        same(rt, (*place, found), (*place, *wanted));
    }
    let good = own_verdict(alloc, ticket, VerifyKind::Md5, Reply::Pass)?;
    let other = own_verdict(alloc, ticket, VerifyKind::Sha1, Reply::Pass)?;
    let wanted = (Verdict::Good, Verdict::Bad(of_another));
    same(rt, (good, other), wanted);
    Ok(())
}

// The draw's number is as it was read, and so is the digest: it is that of other bytes, where it was turned round.
#[test]
fn a_checked_read_is_judged_by_its_own_header(rt: HostRuntime) -> Result<(), Fail> {
    let flips = [
        (20, Verdict::Bad(What::Header)),
        (30, Verdict::Good),
        (40, Verdict::Bad(What::DataArea)),
        (50, Verdict::Bad(What::Digest)),
        (100, Verdict::Bad(What::DataArea)),
    ];
    let ticket = at_start(VerifyKind::Md5, &[], 4096);
    assert_own(&rt, rt.alloc(), &ticket, &flips, What::Header)
}

// Byte 3 tells a chunk from a block, and bytes 8 to 11 how long the chunks are.
#[test]
fn a_checked_read_is_cut_as_its_first_header_says(rt: HostRuntime) -> Result<(), Fail> {
    let flips = [
        (3, Verdict::Bad(What::Header)),
        (9, Verdict::Bad(What::Chunk(0, Part::Header))),
        (1044, Verdict::Bad(What::Chunk(1, Part::Header))),
        (1054, Verdict::Good),
        (1074, Verdict::Bad(What::Chunk(1, Part::Digest))),
        (4095, Verdict::Bad(What::Chunk(3, Part::DataArea))),
    ];
    let ticket = in_chunks(at_start(VerifyKind::Md5, &[], 4096), 1024);
    let of_another = What::Chunk(0, Part::Header);
    assert_own(&rt, rt.alloc(), &ticket, &flips, of_another)
}

// A header from its layout: 512 bytes at the file's first, of draw 11 of clone 3 in pass 7. Its digest is that of 448 zeros, as Python's
// hashlib has it.
const OF_ZEROS: [u8; 48] = [
    0x4a, 0x52, 0x56, 0x31, 1, 16, 7, 0, 0, 2, 0, 0, 3, 0, 0, 0, 0, 0, 0, 0, 0, 0, 0, 0, 11, 0, 0,
    0, 0, 0, 0, 0, 0xd2, 0x69, 0x37, 0xa0, 0xa6, 0x15, 0x26, 0x6c, 0xcd, 0x9f, 0xb1, 0x99, 0xe7,
    0xfb, 0x7f, 0xb9,
];

// What is said of a checked read of these bytes, and of zeros behind them.
fn verdict_on_begun(alloc: Global, begin: &[u8]) -> Result<Verdict, Fail> {
    let ticket = read_of(&at_start(VerifyKind::Md5, &[], 512), VerifyKind::Md5);
    let mut engine = memory_for(alloc, ticket.piece.len)?;
    let reply = Reply::Bytes(ReplyBytes::new(begin.to_vec(alloc)?));
    let read = carried_out(alloc, &mut engine, &ticket, reply)?;
    verdict_on(&read)
}

// Without the last byte of its digest the header has another one.
#[test]
fn a_header_from_outside_is_taken(rt: HostRuntime) -> Result<(), Fail> {
    let mut begin = OF_ZEROS;
    begin[47] = 0;
    let whole = verdict_on_begun(rt.alloc(), &OF_ZEROS)?;
    let cut = verdict_on_begun(rt.alloc(), &begin)?;
    let none = verdict_on_begun(rt.alloc(), &[])?;
    same(&rt, whole, Verdict::Good);
    same(&rt, cut, Verdict::Bad(What::DataArea));
    same(&rt, none, Verdict::Bad(What::Header));
    Ok(())
}

// Is a read judged where the reply to it is this?
fn is_judged(alloc: Global, ticket: &Ticket, reply: Reply) -> Result<bool, Fail> {
    let mut engine = memory_for(alloc, ticket.piece.len)?;
    let served = carried_out(alloc, &mut engine, ticket, reply)?;
    Ok(served.to_judge())
}

// Only a checked read that ended whole is judged, and no read of a job that doesn't check.
#[test]
fn a_checked_read_that_failed_is_not_judged(rt: HostRuntime) -> Result<(), Fail> {
    let check = read_of(&at_start(VerifyKind::Md5, &[], 512), VerifyKind::Md5);
    let mut read = check;
    read.kind = TicketKind::Read;
    same(&rt, is_judged(rt.alloc(), &check, Reply::Pass)?, true);
    same(&rt, is_judged(rt.alloc(), &check, Reply::Fail)?, false);
    same(
        &rt,
        is_judged(rt.alloc(), &check, Reply::Short(511))?,
        false,
    );
    same(&rt, is_judged(rt.alloc(), &read, Reply::Pass)?, false);
    Ok(())
}

// Is the first difference of a block of a pattern named, wherever it stands?
fn assert_differs(rt: &impl Abort, alloc: Global, ticket: &Ticket) -> Result<(), Fail> {
    let len = ticket.piece.len;
    for place in [0, 65, len / 2, len.saturating_sub(1)] {
        assert_flipped(rt, alloc, ticket, place, What::Byte(place))?;
    }
    let good = verdict_by(alloc, ticket, Reply::Pass, Reply::Pass)?;
    same(rt, good, Verdict::Good);
    Ok(())
}

#[test]
fn the_first_byte_off_the_pattern_is_named(rt: HostRuntime) -> Result<(), Fail> {
    let long: [u8; 64] = [7; 64];
    let patterns: [&[u8]; 3] = [&[0x61], &[0x61, 0x62, 0x63], &long];
    for len in [512, 4096, LARGEST_BLOCK] {
        for pattern in patterns {
            let ticket = at_start(VerifyKind::Pattern, pattern, len);
            assert_differs(&rt, rt.alloc(), &ticket)?;
        }
    }
    Ok(())
}
