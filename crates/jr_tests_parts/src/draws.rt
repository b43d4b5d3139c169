use crate::asserts::same;
use crate::plans::plan_of;
use jr_draw::Drawer;
use jr_model::{Dir, Draw, IoType, Piece};
use jr_plan::{Plan, Split, Workload};
use jr_words::{WordList, Words};
use std::alloc::Global;
use std::process::Abort;
use std::test::Fail;

// A draw: its direction, offset and length, and its seed; or none.
type Drawn = Option<(Dir, u64, u32, u64)>;

fn draw_of(number: u32, drawn: Drawn) -> Option<Draw> {
    let (dir, offset, len, seed) = drawn?;
    Some(Draw {
        number,
        dir,
        piece: Piece {
            file: 0,
            offset,
            len,
        },
        seed,
    })
}

// Are these the first draws of pass 7 of a plan's one clone, from these words? Each draw takes four, of which the last is its seed.
fn assert_drawn(
    rt: &impl Abort,
    alloc: Global,
    plan: &Plan,
    words: &[u64],
    wanted: &[Drawn],
) -> Result<(), Fail> {
    same(rt, plan.clones(), 1);
    let source = WordList { rest: words };
    let mut drawer = Drawer::new(alloc, plan.clone_at(0), 7, source)?;
    same(rt, drawer.pass(), 7);
    for (number, drawn) in (0u32..99).zip(wanted.iter()) {
        same(rt, drawer.next(), draw_of(number, *drawn));
    }
    Ok(())
}

#[test]
fn visits_each_cell_of_a_map_once(rt: HostRuntime) -> Result<(), Fail> {
    let work = Workload::plain(IoType::RandWrite, 4096, 4);
    let words = [
        0, 0, 2, 10, 1, 1, 2, 11, 2, 2, 3, 12, 3, 3, 6, 13, 4, 4, 0, 14,
    ];
    let wanted = [
        Some((Dir::Write, 8192, 4096, 10)),
        Some((Dir::Write, 12288, 4096, 11)),
        Some((Dir::Write, 0, 4096, 12)),
        Some((Dir::Write, 4096, 4096, 13)),
        None,
        None,
    ];
    let plan = plan_of(rt.alloc(), &[(work, "f", 0)])?;
    assert_drawn(&rt, rt.alloc(), &plan, &words, &wanted)
}

// A read takes cell 3, and the write of four cells that follows is cut there.
#[test]
fn cuts_a_draw_at_a_taken_cell(rt: HostRuntime) -> Result<(), Fail> {
    let mixed = Workload {
        writes: Split::single(4096),
        ..Workload::plain(IoType::RandRw, 1024, 8)
    };
    let words = [49, 0, 11, 1, 50, 0, 9, 2];
    let wanted = [
        Some((Dir::Read, 3072, 1024, 1)),
        Some((Dir::Write, 1024, 2048, 2)),
    ];
    let plan = plan_of(rt.alloc(), &[(mixed, "f", 0)])?;
    assert_drawn(&rt, rt.alloc(), &plan, &words, &wanted)
}

#[test]
fn comes_back_to_a_cell_without_a_map(rt: HostRuntime) -> Result<(), Fail> {
    let unmapped = Workload {
        has_map: false,
        ..Workload::plain(IoType::RandWrite, 4096, 4)
    };
    let words = [0, 0, 2, 0, 0, 0, 2, 0, 0, 0, 2, 0, 0, 0, 0, 0];
    let wanted = [
        Some((Dir::Write, 8192, 4096, 0)),
        Some((Dir::Write, 8192, 4096, 0)),
        Some((Dir::Write, 8192, 4096, 0)),
        Some((Dir::Write, 0, 4096, 0)),
        None,
    ];
    let plan = plan_of(rt.alloc(), &[(unmapped, "f", 0)])?;
    assert_drawn(&rt, rt.alloc(), &plan, &words, &wanted)
}

// Reads and writes each go on where their own direction stopped, and the last draw is cut.
#[test]
fn goes_on_in_order(rt: HostRuntime) -> Result<(), Fail> {
    let mixed = Workload {
        writes: Split::single(1024),
        ..Workload::plain(IoType::ReadWrite, 512, 6)
    };
    let words = [50, 0, 4, 0, 49, 0, 4, 0, 99, 0, 4, 0, 150, 0, 4, 0];
    let wanted = [
        Some((Dir::Write, 4096, 1024, 0)),
        Some((Dir::Read, 4096, 512, 0)),
        Some((Dir::Write, 5120, 1024, 0)),
        Some((Dir::Write, 6144, 512, 0)),
        None,
    ];
    let plan = plan_of(rt.alloc(), &[(mixed, "f", 4096)])?;
    assert_drawn(&rt, rt.alloc(), &plan, &words, &wanted)
}

// Four random passes from the seed 5.
fn seeded() -> Workload {
    Workload {
        seed: 5,
        passes: 4,
        ..Workload::plain(IoType::RandWrite, 4096, 16)
    }
}

// Clone 1 draws its pass 3 from the seed 5 + 1000003 + 3.
#[test]
fn seeds_each_pass(rt: HostRuntime) -> Result<(), Fail> {
    let plan = plan_of(rt.alloc(), &[(seeded(), "f", 0), (seeded(), "g", 0)])?;
    same(&rt, plan.clones(), 2);
    let mut drawer = Drawer::of_pass(rt.alloc(), plan.clone_at(1), 3)?;
    let source = Words::new(1_000_011);
    let mut other = Drawer::new(rt.alloc(), plan.clone_at(1), 3, source)?;
    for _ in 0..16 {
        let draw = drawer.next();
        assert!(rt; draw.is_some());
        same(&rt, draw, other.next());
    }
    same(&rt, drawer.next(), None);
    Ok(())
}
