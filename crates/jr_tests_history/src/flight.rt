ghost use Rattle.std.specs.Prelude.{◌≡◌, ◌≤◌, ◌<◌};
ghost use Rattle.jr_model.specs.Pieces.{piece_end};

use crate::asserts::same;
use jr_flight::{Ended, Flight, FlightFault, Io};
use jr_model::{Dir, IoId, Piece, overlaps};
use std::test::Fail;

fn piece(file: u32, offset: u64, len: u32) -> Piece
    ensures { result ≡ record { file = file; offset = offset; len = len } }
{
    Piece { file, offset, len }
}

fn io(id: IoId, piece: Piece, dir: Dir, declines: bool) -> Io
    ensures { result ≡ record { id = id; clone = id; piece = piece; dir = dir; declines = declines } }
{
    Io {
        id,
        clone: id,
        piece,
        dir,
        declines,
    }
}

fn ended(io: Io, raced: bool) -> Result<Ended, FlightFault> {
    Ok(Ended { io, raced })
}

#[test]
fn a_write_bars_its_bytes_alone(rt: HostRuntime) -> Result<(), Fail> {
    let mut flight = Flight::new(rt.alloc())?;
    let write = io(0, piece(0, 0, 4096), Dir::Write, false);
    flight.begin(write)?;
    same(&rt, flight.flies(0), true);
    same(
        &rt,
        flight.clear(&piece(0, 4095, 1), Dir::Read, false),
        false,
    );
    same(
        &rt,
        flight.clear(&piece(0, 4096, 512), Dir::Write, false),
        true,
    );
    same(
        &rt,
        flight.clear(&piece(1, 0, 4096), Dir::Write, false),
        true,
    );
    same(&rt, flight.end(0), ended(write, false));
    same(
        &rt,
        flight.clear(&piece(0, 4095, 1), Dir::Read, false),
        true,
    );
    Ok(())
}

#[test]
fn a_read_bars_writes_alone(rt: HostRuntime) -> Result<(), Fail> {
    let mut flight = Flight::new(rt.alloc())?;
    let read = io(7, piece(0, 8192, 4096), Dir::Read, false);
    flight.begin(read)?;
    same(
        &rt,
        flight.clear(&piece(0, 8192, 4096), Dir::Read, false),
        true,
    );
    same(
        &rt,
        flight.clear(&piece(0, 8192, 4096), Dir::Write, false),
        false,
    );
    same(&rt, flight.end(8), Err(FlightFault::Stranger));
    same(&rt, flight.flies(8), false);
    same(&rt, flight.end(7), ended(read, false));
    same(&rt, flight.end(7), Err(FlightFault::Stranger));
    Ok(())
}

// The write alone races the read: a read writes over nothing.
#[test]
fn a_write_races_what_declines_to_wait(rt: HostRuntime) -> Result<(), Fail> {
    let mut flight = Flight::new(rt.alloc())?;
    let read = io(3, piece(0, 8192, 4096), Dir::Read, true);
    let write = io(4, piece(0, 4096, 8192), Dir::Write, false);
    flight.begin(read)?;
    same(
        &rt,
        flight.clear(&piece(0, 4096, 8192), Dir::Write, false),
        true,
    );
    same(&rt, flight.mark(&write), false);
    same(&rt, flight.raced(3) && !flight.flies(4), true);
    flight.put(Ended {
        io: write,
        raced: false,
    })?;
    same(&rt, flight.end(4), ended(write, false));
    same(&rt, flight.end(3), ended(read, true));
    Ok(())
}

#[test]
fn two_writes_race_each_other_alone(rt: HostRuntime) -> Result<(), Fail> {
    let mut flight = Flight::new(rt.alloc())?;
    let aside = io(0, piece(0, 4096, 4096), Dir::Write, false);
    let first = io(1, piece(0, 0, 4096), Dir::Write, false);
    let second = io(2, piece(0, 4095, 1), Dir::Write, true);
    flight.begin(aside)?;
    flight.begin(first)?;
    same(
        &rt,
        flight.clear(&piece(0, 4095, 1), Dir::Write, true),
        true,
    );
    flight.begin(second)?;
    same(
        &rt,
        flight.raced(1) && flight.raced(2) && !flight.raced(0) && !flight.raced(3),
        true,
    );
    same(&rt, flight.end(2), ended(second, true));
    same(&rt, flight.end(1), ended(first, true));
    same(&rt, flight.end(0), ended(aside, false));
    Ok(())
}

// A number below `count`, from a generator (SplitMix64).
fn draw(seed: &mut u64, count: u32) -> u32
    requires { 0 < count }
    ensures { result < count }
{
    *seed = seed.wrapping_add(0x9e37_79b9_7f4a_7c15);
    let mut word = *seed;
    word = (word ^ (word >> 30)).wrapping_mul(0xbf58_476d_1ce4_e5b9);
    word = (word ^ (word >> 27)).wrapping_mul(0x94d0_49bb_1331_11eb);
    ((word ^ (word >> 31)) % u64::from(count)) as u32
}

// A piece of one of two files: most are short, and one in eight is as long as all offsets.
fn draw_piece(seed: &mut u64) -> Piece
    ensures some { 1 ≤ result.len }
    ensures largest { result.len ≤ 65536 }
    ensures within { piece_end result ≤ 131072 }
{
    let longest = if draw(seed, 8) == 0 { 65536 } else { 2048 };
    piece(
        draw(seed, 2),
        u64::from(draw(seed, 65536)),
        1 + draw(seed, longest),
    )
}

fn draw_dir(seed: &mut u64) -> Dir {
    if draw(seed, 2) == 0 {
        Dir::Read
    } else {
        Dir::Write
    }
}

// What a plain list of what is in flight answers.

fn flies(ios: &[Ended], id: IoId) -> bool {
    ios.iter().any(|other| other.io.id == id)
}

fn raced(ios: &[Ended], id: IoId) -> bool {
    ios.iter().any(|other| other.io.id == id && other.raced)
}

fn clear(ios: &[Ended], piece: &Piece, dir: Dir, declines: bool) -> bool {
    ios.iter().all(|other| {
        declines
            || other.io.declines
            || !overlaps(piece, &other.io.piece)
            || other.io.dir == Dir::Read && dir == Dir::Read
    })
}

fn begin(ios: &mut Vec<Ended>, io: Io) -> Result<(), Fail> {
    let mut raced = false;
    for other in ios.iter_mut() {
        if overlaps(&io.piece, &other.io.piece) {
            raced |= other.io.dir == Dir::Write;
            other.raced |= io.dir == Dir::Write;
        }
    }
    ios.push(Ended { io, raced })?;
    Ok(())
}

fn end(ios: &mut Vec<Ended>, id: IoId) -> Result<Ended, FlightFault> {
    match ios.iter().position(|other| other.io.id == id) {
        None => Err(FlightFault::Stranger),
        Some(place) => Ok(ios.swap_remove(place)),
    }
}

// Where a request for memory is refused, the same call is made again: nothing has changed. One in four declines to wait.
#[test]
fn agrees_with_a_plain_list(rt: HostRuntime) -> Result<(), Fail> {
    let mut flight = Flight::new(rt.alloc())?;
    let mut ios = Vec::with_capacity(rt.alloc(), 4000)?;
    let mut seed = 1;
    for round in 0..4000 {
        let id = draw(&mut seed, 64);
        let piece = draw_piece(&mut seed);
        let dir = draw_dir(&mut seed);
        let declines = draw(&mut seed, 4) == 0;
        same(&rt, (round, flight.flies(id)), (round, flies(&ios, id)));
        same(&rt, (round, flight.raced(id)), (round, raced(&ios, id)));
        same(
            &rt,
            (round, flight.clear(&piece, dir, declines)),
            (round, clear(&ios, &piece, dir, declines)),
        );
        if flight.clear(&piece, dir, declines) && !flight.flies(id) {
            let io = io(id, piece, dir, declines);
            if flight.begin(io).is_err() {
                same(&rt, (round, flight.raced(id)), (round, false));
                same(&rt, (round, flight.flies(id)), (round, false));
                flight.begin(io)?;
            }
            begin(&mut ios, io)?;
        } else {
            same(&rt, (round, flight.end(id)), (round, end(&mut ios, id)));
        }
    }
    Ok(())
}
