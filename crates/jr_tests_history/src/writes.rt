ghost use Rattle.std.specs.Prelude.{◌≡◌};
ghost use Rattle.jr_model.specs.Tickets.{piece_fits};

use jr_model::{Expected, LARGEST_BLOCK, LARGEST_END, Memory, Piece, SECTOR, WriteId, overlaps};
use jr_writes::WriteLog;
use std::process::Abort;
use std::test::Fail;

fn write(number: u32) -> WriteId {
    WriteId {
        clone: 0,
        pass: 0,
        number,
    }
}

// Some blocks of a file, from a block on.
fn blocks(file: u32, first: u32, count: u32) -> Piece {
    Piece {
        file,
        offset: u64::from(SECTOR) * u64::from(first),
        len: (SECTOR * (count % 8193)),
    }
}

// A header that tells the writes apart.
fn header(number: u32) -> Expected {
    let mut bytes = [0; 64];
    bytes[0] = (number % 256) as u8;
    bytes[1] = (number / 256 % 256) as u8;
    Expected::Header(bytes)
}

// Whether a log takes the piece.
fn fits(piece: &Piece) -> bool
    ensures { result ≡ piece_fits piece.now }
{
    piece.len != 0
        && piece.len <= LARGEST_BLOCK
        && piece.len % SECTOR == 0
        && piece.offset % u64::from(SECTOR) == 0
        && piece.offset <= LARGEST_END
        && piece.offset <= LARGEST_END - u64::from(piece.len)
}

// Settles a write of a number that wasn't settled before.
fn settle(rt: &impl Abort, log: &mut WriteLog, number: u32, piece: Piece) -> Result<(), Memory> {
    assert!(rt; fits(&piece));
    let name = write(number);
    assert!(rt; !log.intact(&name));
    log.settle(name, piece, header(number))
}

fn unsettle(rt: &impl Abort, log: &mut WriteLog, piece: Piece) {
    assert!(rt; fits(&piece));
    log.unsettle(&piece);
}

// The log has this write, with what was expected of it, exactly where it is to be there.
fn assert_kept(rt: &impl Abort, log: &WriteLog, number: u32, kept: bool) {
    assert!(rt; log.intact(&write(number)) == kept, "write {number}");
    assert!(rt; is_expected(log, number, kept), "of write {number}");
}

// The log has what was expected of this write exactly where it is to be there.
fn is_expected(log: &WriteLog, number: u32, kept: bool) -> bool {
    match log.expected(&write(number)) {
        Some(found) => kept && found == header(number),
        None => !kept,
    }
}

#[test]
fn last_of_its_blocks_is_intact(rt: HostRuntime) -> Result<(), Fail> {
    let mut log = WriteLog::new(rt.alloc());
    for (number, first) in [(0, 16), (1, 16), (2, 16), (3, 0)] {
        settle(&rt, &mut log, number, blocks(0, first, 8))?;
    }
    for (number, kept) in [(0, false), (1, false), (2, true), (3, true)] {
        assert_kept(&rt, &log, number, kept);
    }
    unsettle(&rt, &mut log, blocks(0, 0, 8));
    assert_kept(&rt, &log, 2, true);
    assert_kept(&rt, &log, 3, false);
    Ok(())
}

fn say_refused(rt: &impl Eprint) {
    let _ = eprintln!(rt; "refused: settle");
}

// The log has these writes, by their numbers, and no other of the four.
fn assert_all(rt: &impl Abort, log: &WriteLog, kept: [bool; 4]) {
    for number in 0..4 {
        assert_kept(rt, log, number, kept[number as usize]);
    }
}

// `checks/build/wants.py` refuses each of its requests for memory.
#[test]
fn a_refused_settle_changes_nothing(rt: HostRuntime) -> Result<(), Fail> {
    let mut log = WriteLog::new(rt.alloc());
    let mut kept = [false; 4];
    for (number, first, after) in [
        (0, 16, [true, false, false, false]),
        (1, 16, [false, true, false, false]),
        (2, 16, [false, false, true, false]),
        (3, 0, [false, false, true, true]),
    ] {
        let piece = blocks(0, first, 8);
        if let Err(Memory) = settle(&rt, &mut log, number, piece) {
            say_refused(&rt);
            assert_all(&rt, &log, kept);
            settle(&rt, &mut log, number, piece)?;
        }
        kept = after;
        assert_all(&rt, &log, kept);
    }
    Ok(())
}

#[test]
fn both_halves_go(rt: HostRuntime) -> Result<(), Fail> {
    let mut log = WriteLog::new(rt.alloc());
    settle(&rt, &mut log, 0, blocks(0, 0, 8))?;
    settle(&rt, &mut log, 1, blocks(0, 8, 8))?;
    settle(&rt, &mut log, 2, blocks(1, 4, 8))?;
    settle(&rt, &mut log, 3, blocks(0, 4, 8))?;
    for (number, kept) in [(0, false), (1, false), (2, true), (3, true)] {
        assert_kept(&rt, &log, number, kept);
    }
    Ok(())
}

#[test]
fn largest_block_over_thousands(rt: HostRuntime) -> Result<(), Fail> {
    let mut log = WriteLog::new(rt.alloc());
    for number in 0..8194 {
        settle(&rt, &mut log, number, blocks(0, number, 1))?;
    }
    settle(&rt, &mut log, 9000, blocks(0, 1, 8192))?;
    for number in 0..8194 {
        assert_kept(&rt, &log, number, number == 0 || number == 8193);
    }
    assert_kept(&rt, &log, 9000, true);
    Ok(())
}

// The next of a row of numbers that look random.
fn next_random(state: u64) -> u64 {
    state
        .wrapping_mul(6_364_136_223_846_793_005)
        .wrapping_add(1_442_695_040_888_963_407)
}

// Against a plain list of the settled writes. A settle that is refused for want of memory, as under
// `rt try --test --fail-alloc N`, leaves the log as it was.
#[test]
fn agrees_with_a_plain_list(rt: HostRuntime) -> Result<(), Fail> {
    let mut log = WriteLog::new(rt.alloc());
    let mut plain: Vec<(u32, Piece)> = Vec::with_capacity(rt.alloc(), 200)?;
    let mut state = 1;
    for call in 0..4000 {
        state = next_random(state);
        let random = (state >> 33) as u32;
        let piece = blocks(random % 2, random / 2 % 64, 1 + random / 128 % 8);
        if random / 1024 % 4 == 0 {
            unsettle(&rt, &mut log, piece);
            plain.retain(|entry| !overlaps(&entry.1, &piece));
        } else if settle(&rt, &mut log, call, piece).is_ok() {
            plain.retain(|entry| !overlaps(&entry.1, &piece));
            plain.push((call, piece))?;
        }
        if call % 40 == 0 {
            for number in 0..=call {
                assert_kept(
                    &rt,
                    &log,
                    number,
                    plain.iter().any(|entry| entry.0 == number),
                );
            }
        }
    }
    Ok(())
}
