// Plans and replies that a generator draws.
ghost use Rattle.std.specs.Prelude.{◌<◌};

use jr_model::{EngineKind, IoType, Method, Pattern, Reply, VerifyKind};
use jr_plan::{Draft, Plan, Split, Workload};
use std::alloc::Global;
use std::test::Fail;

// A number below `count`, from a generator (SplitMix64).
pub(crate) fn draw(seed: &mut u64, count: u32) -> u32
    requires { 0 < count }
    ensures { result < count }
{
    *seed = seed.wrapping_add(0x9e37_79b9_7f4a_7c15);
    let mut word = *seed;
    word = (word ^ (word >> 30)).wrapping_mul(0xbf58_476d_1ce4_e5b9);
    word = (word ^ (word >> 27)).wrapping_mul(0x94d0_49bb_1331_11eb);
    ((word ^ (word >> 31)) % u64::from(count)) as u32
}

fn draw_type(seed: &mut u64) -> IoType {
    match draw(seed, 7) {
        0 => IoType::Read,
        1 => IoType::RandRead,
        2 => IoType::Write,
        3 => IoType::ReadWrite,
        4 => IoType::RandRw,
        _ => IoType::RandWrite,
    }
}

fn draw_kind(seed: &mut u64) -> VerifyKind {
    match draw(seed, 6) {
        0 => VerifyKind::Plain,
        1 => VerifyKind::Sha256,
        2 | 3 => VerifyKind::Md5,
        _ => VerifyKind::Pattern,
    }
}

fn draw_method(seed: &mut u64) -> Method {
    let kind = draw_kind(seed);
    Method {
        kind,
        pattern: if kind == VerifyKind::Pattern || draw(seed, 2) == 0 {
            Pattern::new(&[0xa5, 0x5a, 0x0f])
        } else {
            None
        },
        interval: 0,
    }
}

// Blocks of one cell, or of one and of two.
fn draw_split(seed: &mut u64, cell: u32) -> Split {
    let mixed = Split::of_entries(&[(cell, 50), (cell.saturating_mul(2), 50)]);
    match mixed {
        Some(split) if draw(seed, 3) == 0 => split,
        _ => Split::single(cell),
    }
}

fn draw_workload(seed: &mut u64) -> Workload {
    let io_type = draw_type(seed);
    let cell = if draw(seed, 2) == 0 { 512 } else { 4096 };
    let cells = 4 + draw(seed, 9);
    Workload {
        phase: draw(seed, 8) / 6,
        read_percent: 50,
        reads: draw_split(seed, cell),
        writes: draw_split(seed, cell),
        has_map: draw(seed, 4) != 0,
        seed: u64::from(draw(seed, 1000)),
        depth: 1 + draw(seed, 4),
        passes: 1 + draw(seed, 3),
        method: draw_method(seed),
        checks_writes: draw(seed, 5) != 0,
        backlog: draw(seed, 3) * 3 / 2,
        is_fatal: draw(seed, 2) == 0,
        declines: draw(seed, 4) == 0,
        ..Workload::plain(io_type, cell, cells)
    }
}

// A plan of 1 to 3 clones over one file or two, whose regions overlap.
pub(crate) fn draw_plan(alloc: Global, seed: &mut u64) -> Result<Plan, Fail> {
    let mut draft = Draft::new(alloc);
    let files = 1 + draw(seed, 2);
    for _ in 0..1 + draw(seed, 3) {
        let workload = draw_workload(seed);
        let file = if draw(seed, files) == 0 { "a" } else { "b" };
        let start = 512 * u64::from(draw(seed, 4));
        draft.add(alloc, &workload, "w", String::from_str(alloc, file)?, start)?;
    }
    if draft.clones() == 0 {
        return Err(Fail::from("no clones"));
    }
    Ok(draft.finish(EngineKind::Memory, 0))
}

// A plan of three clones over one file, whose regions overlap. One of them declines to wait, or in one plan of four none does.
pub(crate) fn draw_three(alloc: Global, seed: &mut u64) -> Result<Plan, Fail> {
    let mut draft = Draft::new(alloc);
    let declining = draw(seed, 4);
    for clone in 0..3u32 {
        let workload = Workload {
            phase: 0,
            declines: clone == declining,
            ..draw_workload(seed)
        };
        let start = 512 * u64::from(draw(seed, 4));
        draft.add(alloc, &workload, "w", String::from_str(alloc, "f")?, start)?;
    }
    if draft.clones() == 0 {
        return Err(Fail::from("no clones"));
    }
    Ok(draft.finish(EngineKind::Memory, 0))
}

// Mostly the call is carried out.
pub(crate) fn draw_reply(seed: &mut u64) -> Reply {
    match draw(seed, 40) {
        0 => Reply::Fail,
        1 => Reply::Short(512),
        2 => Reply::Torn(512),
        3 | 4 => Reply::Flip(draw(seed, 4096)),
        5 | 6 => Reply::Drop,
        _ => Reply::Pass,
    }
}
