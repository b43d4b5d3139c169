use crate::asserts::same;
use jr_model::Dir;
use jr_plan::{Split, mix};
use jr_sizes::{ReadSplit, SplitFault};
use std::test::Fail;

#[test]
fn splits_as_values(rt: HostRuntime) -> Result<(), Fail> {
    let split = Split::of_entries(&[(4096, 50), (1024, 25), (32768, 25)]).ok_or("no split")?;
    split.facts();
    same(&rt, split.size_of(49), 4096);
    same(&rt, split.size_of(50), 1024);
    same(&rt, split.size_of(75), 32768);
    same(&rt, (split.fits(1024), split.fits(4096)), (true, false));
    same(&rt, is_split(&[(4096, 50), (1024, 25)]), false);
    same(&rt, is_split(&[(4096, 50), (1024, 51)]), false);
    same(&rt, is_split(&[]), false);
    Ok(())
}

fn is_split(entries: &[(u32, u8)]) -> bool {
    Split::of_entries(entries).is_some()
}

#[test]
fn one_size_and_a_mix(rt: HostRuntime) {
    let single = Split::single(8192);
    single.facts();
    same(&rt, single.entries(), [(8192, 100)].as_slice());
    same(&rt, single.size_of(0), 8192);
    same(&rt, single.size_of(99), 8192);
    same(&rt, mix(59, 60), Dir::Read);
    same(&rt, mix(60, 60), Dir::Write);
}

#[test]
fn blanks_share_what_is_missing(rt: HostRuntime) -> Result<(), Fail> {
    let split = Split::read("4k/50:1k/:32k/")?;
    same(
        &rt,
        split.entries(),
        [(4096, 50), (1024, 25), (32768, 25)].as_slice(),
    );
    same(&rt, split.size_of(49), 4096);
    same(&rt, split.size_of(50), 1024);
    same(&rt, split.size_of(74), 1024);
    same(&rt, split.size_of(75), 32768);
    let split = Split::read("1k/:2k/:4k/")?;
    same(
        &rt,
        split.entries(),
        [(1024, 34), (2048, 33), (4096, 33)].as_slice(),
    );
    Ok(())
}

// 64 entries, and one more that is none.
const MANY: &str =
    "1:1:1:1:1:1:1:1:1:1:1:1:1:1:1:1:1:1:1:1:1:1:1:1:1:1:1:1:1:1:1:1:1:1:1:1:1:1:1:1:1:1:1:1:1:1:1:1:1:1:1:1:1:1:1:1:1:1:1:1:1:1:1:1:x";

#[test]
fn splits_are_refused_by_name(rt: HostRuntime) {
    same(&rt, refusal("4k/60:8k/50"), Some(SplitFault::Over));
    same(&rt, refusal("4k/60"), Some(SplitFault::Under));
    same(&rt, refusal("x/60:8k/500"), Some(SplitFault::BadSize));
    same(&rt, refusal("4k/101:y"), Some(SplitFault::BadPercent));
    same(&rt, refusal("4294967296"), Some(SplitFault::BadSize));
    same(&rt, refusal(MANY), Some(SplitFault::TooMany));
}

// Why a text is no split.
fn refusal(text: &str) -> Option<SplitFault> {
    match Split::read(text) {
        Ok(_) => None,
        Err(fault) => Some(fault),
    }
}
