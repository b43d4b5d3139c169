ghost use Rattle.std.specs.Prelude.{◌≡◌, ◌<◌, ◌≤◌, length};

use crate::asserts::same;
use jr_map::{CellMap, MOST_CELLS};
use std::process::Abort;
use std::test::Fail;

// Takes the first cells that are free from `r` on, at most `want`.
fn draw(map: &mut CellMap, r: u32, want: u32) -> Option<(u32, u32)>
    requires { r < length map.old }
    ensures { length map.new ≡ length map.old }
{
    let x = map.pick(r)?;
    let m = map.run(x, want);
    map.take(x, m);
    Some((x, m))
}

// Takes all cells of a free map, and frees them.
fn assert_takes_all(rt: &impl Abort, map: &mut CellMap, n: u32)
    requires least { 1 ≤ n }
    requires size { length map.old ≡ n }
{
    let most = (map.left(), draw(map, 0, n - 1), map.pick(0));
    same(rt, (n, most), (n, (n, Some((0, n - 1)), Some(n - 1))));
    let last = (map.left(), draw(map, 0, n), map.pick(0));
    same(rt, (n, last), (n, (1, Some((n - 1, 1)), None)));
    map.clear();
    same(rt, (map.left(), map.pick(n - 1)), (n, Some(n - 1)));
}

// Sizes at which the levels of words change their shape.
#[test]
fn takes_all_cells(rt: HostRuntime) -> Result<(), Fail> {
    for n in [1, 64, 65, 4096, 4097, MOST_CELLS] {
        assert!(rt; 1 <= n && n <= MOST_CELLS);
        let mut map = CellMap::new(rt.alloc(), n)?;
        assert_takes_all(&rt, &mut map, n);
    }
    Ok(())
}

// Goes on at the first cell where the cells behind are taken, in a free map.
fn assert_goes_on(rt: &impl Abort, map: &mut CellMap, n: u32)
    requires least { 8 ≤ n }
    requires size { length map.old ≡ n }
{
    let behind = (draw(map, 1, n), map.pick(n - 1));
    same(rt, (n, behind), (n, (Some((1, n - 1)), Some(0))));
    map.clear();
    let three = (draw(map, n - 1, 1), draw(map, 0, 2), draw(map, n - 1, n));
    same(
        rt,
        (n, three),
        (n, (Some((n - 1, 1)), Some((0, 2)), Some((2, n - 3)))),
    );
}

#[test]
fn goes_on_at_the_least_free_cell(rt: HostRuntime) -> Result<(), Fail> {
    for n in [8, 65, MOST_CELLS] {
        assert!(rt; 8 <= n && n <= MOST_CELLS);
        let mut map = CellMap::new(rt.alloc(), n)?;
        assert_goes_on(&rt, &mut map, n);
    }
    Ok(())
}

#[test]
fn cuts_a_run_at_a_taken_cell(rt: HostRuntime) -> Result<(), Fail> {
    let mut map = CellMap::new(rt.alloc(), 130)?;
    let drawn = (draw(&mut map, 128, 1), draw(&mut map, 60, 100));
    same(&rt, drawn, (Some((128, 1)), Some((60, 68))));

    let mut map = CellMap::new(rt.alloc(), 8)?;
    let drawn = (draw(&mut map, 3, 1), draw(&mut map, 1, 4));
    same(&rt, drawn, (Some((3, 1)), Some((1, 2))));
    Ok(())
}
