ghost use Rattle.std.specs.Prelude.{◌≡◌, [], ◌∷◌, ◌++◌, not, filter, if◌then◌else◌, IsTrue, OnOk, OnErr};
ghost use Rattle.std.specs.List.{list_all, list_any};
ghost use Rattle.jr_model.specs.History.{same_write};
ghost use Rattle.jr_backlog.specs.Rounds.{comes_last, is_before, takes_writes, with_exhausted, with_written};
ghost use Rattle.jr_backlog.specs.Deferred.{is_committed};

use crate::asserts::same;
use crate::plans::plan_of;
use jr_backlog::{DeferredRounds, Rounds};
use jr_draw::{Drawer, DrawsLeft};
use jr_model::{IoType, Memory, WriteId};
use jr_plan::{Plan, Split, Workload};
use std::alloc::Global;
use std::marker::Model;
use std::process::Abort;
use std::test::Fail;

// Each draw of two passes of a clone of 16 cells.
fn same_draws(rt: &impl Abort, alloc: Global, plan: &Plan, clone: usize) -> Result<(), Fail> {
    assert!(rt; clone < plan.clones());
    for pass in 0..2u32 {
        let mut draws = DrawsLeft::of_pass(alloc, plan.clone_at(clone), pass)?;
        let mut drawer = Drawer::of_pass(alloc, plan.clone_at(clone), pass)?;
        for _ in 0..20 {
            let draw = drawer.next();
            same(rt, draws.is_over(), draw.is_none());
            same(rt, draws.next(), draw);
            draws.skip_next();
        }
        assert!(rt; draws.is_over());
    }
    Ok(())
}

#[test]
fn gives_the_draws_of_a_drawer(rt: HostRuntime) -> Result<(), Fail> {
    let mapped = Workload {
        passes: 2,
        ..Workload::plain(IoType::RandWrite, 4096, 16)
    };
    let mixed = Workload {
        writes: Split::single(4096),
        passes: 2,
        ..Workload::plain(IoType::RandRw, 1024, 16)
    };
    let unmapped = Workload {
        has_map: false,
        ..mixed
    };
    let plan = plan_of(
        rt.alloc(),
        &[
            (mapped, "f", 8192),
            (mixed, "g", 8192),
            (unmapped, "h", 8192),
        ],
    )?;
    for clone in 0..3usize {
        same_draws(&rt, rt.alloc(), &plan, clone)?;
    }
    Ok(())
}

#[test]
fn is_over_behind_the_last_draw(rt: HostRuntime) -> Result<(), Fail> {
    let plan = plan_of(
        rt.alloc(),
        &[(Workload::plain(IoType::Write, 4096, 3), "f", 8192)],
    )?;
    same(&rt, plan.clones(), 1);
    let mut draws = DrawsLeft::of_pass(rt.alloc(), plan.clone_at(0), 0)?;
    for (number, offset) in [(0, 8192), (1, 12288), (2, 16384)] {
        assert!(rt; !draws.is_over());
        let draw = draws.next().ok_or("no draw")?;
        same(&rt, draw.number, number);
        same(&rt, draw.piece.offset, offset);
        same(&rt, draws.next(), Some(draw));
        draws.skip_next();
    }
    for _ in 0..2 {
        assert!(rt; draws.is_over());
        same(&rt, draws.next(), None);
        draws.skip_next();
    }
    Ok(())
}

fn write(number: u32) -> WriteId {
    WriteId {
        clone: 1,
        pass: 2,
        number,
    }
}

// The write comes after all of these.
fn is_last(writes: &[WriteId], write: &WriteId) -> bool
    ensures { result ≡ list_all (λ other. is_before other write.now) writes.now }
{
    writes.iter().all(|other| other.cmp(write).is_lt())
}

// The write is one of these.
fn is_in(writes: &[WriteId], write: &WriteId) -> bool
    ensures { result ≡ list_any (same_write write.now) writes.now }
{
    writes.iter().any(|other| write == other)
}

fn take_out(writes: &mut Vec<WriteId>, write: WriteId)
    ensures { writes.new.items ≡ filter (λ other. not (same_write write other)) writes.old.items }
{
    writes.retain(|other| write != *other);
}

// A write is put into the plain round at once.
fn put(
    plain: &mut Rounds,
    writes: &mut Vec<WriteId>,
    write: WriteId,
    ended: bool,
) -> Result<(), Memory>
    requires room { IsTrue (takes_writes plain.old) }
    requires last { IsTrue (comes_last plain.old write) }
    ensures plain { let now = with_written plain.old write in
        OnOk result (plain.new ≡ if ended then with_exhausted now else now) }
    ensures writes { OnOk result (writes.new.items ≡ writes.old.items ++ write ∷ []) }
    ensures plain_kept { OnErr result (plain.new ≡ plain.old) }
    ensures writes_kept { OnErr result (writes.new.items ≡ writes.old.items) }
{
    writes.reserve(1)?;
    plain.written(write)?;
    writes.push_reserved(write);
    if ended {
        plain.exhausted();
    }
    Ok(())
}

// A deferred round beside a plain one, into which each draw is put at once, and the writes that this one has to check.
#[derive(Drop)]
struct Walked {
    deferred: DeferredRounds,
    plain: Rounds,
    to_check: Vec<WriteId>,
}

impl Model for Walked {
    ghost use Rattle.std.specs.Prelude.{◌≡◌};
    ghost use Rattle.jr_backlog.specs.Deferred.{Deferred, round_now};

    ghost Value = { Deferred };

    ghost view = { λ w. w.deferred };

    ghost invariant = { λ w. (round_now w.deferred ≡ w.plain) × (w.plain.to_check ≡ w.to_check.items) };
}

impl Walked {
    fn new(alloc: Global, limit: u32) -> Walked
        ensures { IsTrue (is_committed result) }
    {
        Walked {
            deferred: DeferredRounds::new(alloc, limit),
            plain: Rounds::new(alloc, limit),
            to_check: Vec::new(alloc),
        }
    }

    // Where memory is refused, nothing has changed, and it is asked for once more.
    fn commit(&mut self, rt: &impl Abort) -> Result<(), Memory>
        ensures { OnOk result (IsTrue (is_committed self.new)) }
    {
        if self.deferred.commit().is_err() {
            same(rt, self.deferred.is_closed(), self.plain.closed());
            self.deferred.commit()?;
        }
        Ok(())
    }

    // A write is issued.
    fn write(&mut self, rt: &impl Abort, write: WriteId, ended: bool) -> Result<(), Fail>
        requires { IsTrue (is_committed self.old) }
    {
        assert!(rt; !self.deferred.is_under_way());
        assert!(rt; is_last(&self.to_check, &write));
        put(&mut self.plain, &mut self.to_check, write, ended)?;
        self.deferred.issued(Some(write), ended);
        Ok(())
    }

    // A read is issued.
    fn read(&mut self, ended: bool)
        requires { IsTrue (is_committed self.old) }
    {
        if ended {
            self.plain.exhausted();
        }
        self.deferred.issued(None, ended);
    }

    // A write was checked or skipped.
    fn pass(&mut self, rt: &impl Abort, write: WriteId)
        requires { IsTrue (is_committed self.old) }
        ensures { IsTrue (is_committed self.new) }
    {
        assert!(rt; is_in(&self.to_check, &write));
        self.deferred.passed(write);
        self.plain.passed(write);
        take_out(&mut self.to_check, write);
    }

    // Both say so, of a round that is due and of one that isn't.
    fn expect(&self, rt: &impl Abort, left: usize, next: Option<WriteId>)
        requires { IsTrue (is_committed self.now) }
    {
        same(rt, self.deferred.left(), left);
        same(rt, self.deferred.next_check(), next);
        same(rt, self.deferred.is_under_way(), next.is_some());
        self.agree(rt, &write(0));
    }

    fn agree(&self, rt: &impl Abort, write: &WriteId)
        requires { IsTrue (is_committed self.now) }
    {
        let under_way = self.plain.due() && !self.plain.closed();
        same(rt, self.deferred.is_under_way(), under_way);
        same(rt, self.deferred.is_closed(), self.plain.closed());
        same(rt, self.deferred.left(), self.to_check.len());
        same(rt, self.deferred.next_check(), self.plain.next_check());
        same(
            rt,
            self.deferred.next_after(write),
            self.plain.next_after(write),
        );
        same(rt, self.deferred.write_at(0), self.plain.write_at(0));
    }
}

#[test]
fn writes_and_reads_in_rounds_of_two(rt: HostRuntime) -> Result<(), Fail> {
    let mut walked = Walked::new(rt.alloc(), 2);
    walk_a_round(&rt, &mut walked)?;
    check_a_round(&rt, &mut walked);
    Ok(())
}

// A write, a read and a write, which fills the round.
fn walk_a_round(rt: &impl Abort, walked: &mut Walked) -> Result<(), Fail>
    requires { IsTrue (is_committed walked.old) }
    ensures { OnOk result (IsTrue (is_committed walked.new)) }
{
    walked.expect(rt, 0, None);
    walked.write(rt, write(0), false)?;
    same(rt, walked.deferred.is_closed(), false);
    walked.commit(rt)?;
    walked.expect(rt, 1, None);
    walked.read(false);
    walked.commit(rt)?;
    walked.expect(rt, 1, None);
    walked.write(rt, write(2), false)?;
    walked.commit(rt)?;
    Ok(())
}

// The second write is checked before the first.
fn check_a_round(rt: &impl Abort, walked: &mut Walked)
    requires { IsTrue (is_committed walked.old) }
{
    walked.expect(rt, 2, Some(write(0)));
    same(rt, walked.deferred.next_after(&write(0)), Some(write(2)));
    same(rt, walked.deferred.next_after(&write(2)), None);
    same(rt, walked.deferred.write_at(1), Some(write(2)));
    same(rt, walked.deferred.write_at(2), None);
    walked.pass(rt, write(2));
    walked.expect(rt, 1, Some(write(0)));
    same(rt, walked.deferred.next_after(&write(0)), None);
    same(rt, walked.deferred.is_closed(), false);
    walked.pass(rt, write(0));
    walked.expect(rt, 0, None);
    same(rt, walked.deferred.is_closed(), true);
}

// The last draw of a pass makes its round due, also where it is a read; and a write that waits opens the round that was
// closed.
#[test]
fn a_round_is_due_at_the_end_of_its_pass(rt: HostRuntime) -> Result<(), Fail> {
    let mut walked = Walked::new(rt.alloc(), 0);
    end_with_a_read(&rt, &mut walked)?;
    end_behind_a_write(&rt, &mut walked)?;
    end_with_a_write(&rt, &mut walked)
}

fn end_with_a_read(rt: &impl Abort, walked: &mut Walked) -> Result<(), Fail>
    requires { IsTrue (is_committed walked.old) }
    ensures { OnOk result (IsTrue (is_committed walked.new)) }
{
    walked.read(true);
    same(rt, walked.deferred.is_closed(), true);
    walked.commit(rt)?;
    walked.expect(rt, 0, None);
    same(rt, walked.deferred.is_closed(), true);
    Ok(())
}

fn end_behind_a_write(rt: &impl Abort, walked: &mut Walked) -> Result<(), Fail>
    requires { IsTrue (is_committed walked.old) }
    ensures { OnOk result (IsTrue (is_committed walked.new)) }
{
    walked.write(rt, write(10), false)?;
    same(rt, walked.deferred.is_closed(), false);
    walked.commit(rt)?;
    walked.expect(rt, 1, None);
    walked.read(true);
    same(rt, walked.deferred.is_closed(), false);
    walked.commit(rt)?;
    walked.expect(rt, 1, Some(write(10)));
    walked.pass(rt, write(10));
    same(rt, walked.deferred.is_closed(), true);
    Ok(())
}

fn end_with_a_write(rt: &impl Abort, walked: &mut Walked) -> Result<(), Fail>
    requires { IsTrue (is_committed walked.old) }
{
    walked.write(rt, write(20), true)?;
    same(rt, walked.deferred.is_closed(), false);
    walked.commit(rt)?;
    walked.expect(rt, 1, Some(write(20)));
    walked.pass(rt, write(20));
    same(rt, walked.deferred.is_closed(), true);
    Ok(())
}
