ghost use Rattle.std.specs.Prelude.{◌≡◌, ◌+◌, ◌<◌, ◌≤◌, ℕ, suc, true, false, List, [], length, slice_get, Some, None, IfOk, OnOk};
ghost use Rattle.std.specs.Prelude.{unwrap_or, vec_capacity, is_some, IfSome, OnErr};
ghost use Rattle.std.specs.Option.{option_map};
ghost use Rattle.jr_desk_state.specs.declared.standings.Issued.{Issued as Drawn};
ghost use Rattle.jr_model.specs.declared.events.IssueKind.TheVariants as issue;
ghost use Rattle.jr_model.specs.declared.blocks.Piece.{Piece as Place};
ghost use Rattle.jr_model.specs.declared.events.Event.{Event};
ghost use Rattle.jr_model.specs.declared.events.Event.TheVariants.{Issue, Probe, Skip, End};
ghost use Rattle.jr_model.specs.declared.events.Outcome.TheVariants.{Whole};
ghost use Rattle.jr_model.specs.declared.events.Started.{Started};
ghost use Rattle.jr_model.specs.declared.events.WriteId.{WriteId as Name};
ghost use Rattle.jr_model.specs.Draws.{draws_of_job};
ghost use Rattle.jr_model.specs.History.{started, is_probe};
ghost use Rattle.jr_model.specs.Legal.{is_halted};
ghost use Rattle.jr_model.specs.Machine.{seed_of_draw};
ghost use Rattle.jr_model.specs.Plan.{Plan as Planned, SubJob as Clone, clone_of};
ghost use Rattle.jr_model.specs.Rounds.{has_rounds};
ghost use Rattle.jr_model.specs.PlanFacts.{IsPlanned};
ghost use Rattle.jr_backlog.specs.Rounds.{comes_last, is_to_check, takes_writes};
ghost use Rattle.jr_backlog.specs.Deferred.{is_committed};
ghost use Rattle.jr_laws_steps.specs.Nexts.{IsNext, grown};
ghost use Rattle.jr_desk_state.specs.Standings.{added_by, IsPrepared, IsStanding, left_in};

use jr_backlog::DeferredRounds;
use jr_draw::DrawsLeft;
use jr_model::{IoId, IssueKind, Memory, WriteId};
use jr_plan::SubJob;
use std::alloc::Global;

// A draw that was issued: its number, and whether it was checked or skipped.
#[derive(Clone, Copy)]
pub struct Issued {
    pub id: IoId,
    pub is_taken_up: bool,
}

// Where a clone stands.
#[derive(Drop)]
pub struct Standing {
    // The pass that it is in.
    pub pass: u32,
    // The draws of this pass that weren't issued yet.
    pub draws: DrawsLeft,
    // Those of the next pass, where they are made already.
    pub later: Option<DrawsLeft>,
    // The draws of this pass that were, in order.
    pub issued: Vec<Issued>,
    pub rounds: DeferredRounds,
}

impl Standing {
    // Before its first draw.
    pub fn new(alloc: Global, job: &SubJob) -> Result<Standing, Memory>
        ensures stands { IfOk result (λ standing. (plan : Planned) → IsPlanned plan → clone_of plan job.now.clone ≡ Some job.now
            → IsStanding [] job.now standing) }
        ensures left { IfOk result (λ standing. left_in standing ≡ 0) }
    {
        Ok(Standing {
            pass: 0,
            draws: DrawsLeft::of_pass(alloc, job, 0)?,
            later: None,
            issued: Vec::new(alloc),
            rounds: DeferredRounds::new(alloc, job.backlog()),
        })
    }

    // Asks for all memory that the next draw can want. Where the clone stands is the same, whether it is refused or not.
    pub fn prepare(&mut self, alloc: Global, job: &SubJob) -> Result<(), Memory>
        requires { self.old.pass < job.now.passes }
        ensures kept { (history : List Event) → IsStanding history job.now self.old → IsStanding history job.now self.new }
        ensures prepared { OnOk result (IsPrepared job.now self.new) }
        ensures left { left_in self.new ≡ left_in self.old }
    {
        job.facts();
        self.rounds.commit()?;
        self.issued.reserve(1)?;
        if self.draws.is_over() && self.later.is_none() && self.pass + 1 < job.passes() {
            self.make_later(alloc, job)?;
        }
        Ok(())
    }

    // Makes the draws of the next pass.
    fn make_later(&mut self, alloc: Global, job: &SubJob) -> Result<(), Memory>
        requires { self.old.pass + 1 < job.now.passes }
        ensures ok { OnOk result (IfSome self.new.later (λ draws. draws ≡ draws_of_job job.now (suc self.old.pass))) }
        ensures there { OnOk result (is_some self.new.later ≡ true) }
        ensures err { OnErr result (self.new.later ≡ self.old.later) }
        ensures pass { self.new.pass ≡ self.old.pass }
        ensures draws { self.new.draws ≡ self.old.draws }
        ensures issued { self.new.issued ≡ self.old.issued }
        ensures rounds { self.new.rounds ≡ self.old.rounds }
    {
        job.facts();
        self.later = Some(DrawsLeft::of_pass(alloc, job, self.pass + 1)?);
        Ok(())
    }

    // Issues the next draw under this number, and gives its seed. The first draw of the next pass moves the clone there.
    pub fn issue(&mut self, job: &SubJob, id: IoId, kind: IssueKind, write: WriteId) -> u64
        requires prepared { IsPrepared job.now self.old }
        requires pass { self.old.pass < job.now.passes }
        requires room { has_rounds job.now ≡ true → kind ≡ issue.Write → takes_writes self.old.rounds.round ≡ true }
        requires last { has_rounds job.now ≡ true → kind ≡ issue.Write → comes_last self.old.rounds.round write ≡ true }
        ensures seed { (plan : Planned) (history : List Event) (worker : ℕ) (piece : Place)
            → IsNext plan history (Issue worker kind write piece)
            → clone_of plan write.clone ≡ Some job.now → IsStanding history job.now self.old
            → result ≡ seed_of_draw (slice_get (draws_of_job job.now write.pass) write.number) }
        ensures kept { (plan : Planned) (history : List Event) (worker : ℕ) (piece : Place)
            → IsNext plan history (Issue worker kind write piece)
            → clone_of plan write.clone ≡ Some job.now → id ≡ length (started history) → IsStanding history job.now self.old
            → IsStanding (grown history (Issue worker kind write piece)) job.now self.new }
        ensures left { left_in self.new ≤ left_in self.old + added_by job.now kind }
    {
        job.facts();
        if self.draws.is_over() {
            self.begin_next_pass();
        }
        let seed = self.next_seed();
        self.draws.skip_next();
        self.issued.push_reserved(Issued {
            id,
            is_taken_up: false,
        });
        if has_rounds(job) {
            self.rounds
                .issued(written(kind, write), self.draws.is_over());
        }
        seed
    }

    // The seed of the next draw.
    fn next_seed(&self) -> u64
        ensures { result ≡ seed_of_draw (slice_get self.now.draws 0) }
    {
        self.draws.next().map_or(0, |draw| draw.seed)
    }

    // Goes on to the next pass, of which nothing was issued.
    fn begin_next_pass(&mut self)
        requires { self.old.pass < 1000 }
        ensures pass { self.new.pass ≡ suc self.old.pass }
        ensures draws { self.new.draws ≡ unwrap_or self.old.later self.old.draws }
        ensures later { self.new.later ≡ None }
        ensures issued { self.new.issued.items ≡ [] }
        ensures room { vec_capacity self.new.issued ≡ vec_capacity self.old.issued }
        ensures rounds { self.new.rounds ≡ self.old.rounds }
    {
        if let Some(draws) = self.later.take() {
            self.draws = draws;
        }
        self.pass += 1;
        self.issued.clear();
    }

    // A draw of this number in its pass is being checked. Says under which number it was issued.
    pub fn take_up(&mut self, number: u32) -> IoId
        requires { number < length self.old.issued.items }
        ensures id { option_map (λ (issued : Drawn). issued.id) (slice_get self.old.issued.items number) ≡ Some result }
        ensures kept { (plan : Planned) (history : List Event) (job : Clone) (worker : ℕ) (write : Name) (piece : Place)
            → IsNext plan history (Probe worker write piece) → clone_of plan write.clone ≡ Some job → write.number ≡ number
            → IsStanding history job self.old → IsStanding (grown history (Probe worker write piece)) job self.new }
        ensures prepared { (job : Clone) → IsPrepared job self.old → IsPrepared job self.new }
        ensures left { left_in self.new ≡ left_in self.old }
    {
        let issued = &mut self.issued[number as usize];
        issued.is_taken_up = true;
        issued.id
    }

    // A write is skipped.
    pub fn skip(&mut self, write: WriteId)
        requires there { write.number < length self.old.issued.items }
        requires settled { is_committed self.old.rounds ≡ true }
        requires left { is_to_check self.old.rounds.round write ≡ true }
        ensures kept { (plan : Planned) (history : List Event) (job : Clone) (worker : ℕ) → IsNext plan history (Skip worker write)
            → clone_of plan write.clone ≡ Some job → IsStanding history job self.old
            → IsStanding (grown history (Skip worker write)) job self.new }
        ensures prepared { (job : Clone) → IsPrepared job self.old → IsPrepared job self.new }
        ensures fewer { left_in self.new < left_in self.old }
    {
        self.issued[write.number as usize].is_taken_up = true;
        self.rounds.passed(write);
    }

    // The check of a write ended whole, where the clone isn't halted.
    pub fn checked(&mut self, write: WriteId)
        requires settled { is_committed self.old.rounds ≡ true }
        requires left { is_to_check self.old.rounds.round write ≡ true }
        ensures kept { (plan : Planned) (history : List Event) (job : Clone) (worker id : ℕ) (io : Started)
            → IsNext plan history (End worker id Whole)
            → slice_get (started history) id ≡ Some io → is_probe io.kind ≡ true → io.write ≡ write
            → clone_of plan write.clone ≡ Some job → is_halted history job ≡ false → IsStanding history job self.old
            → IsStanding (grown history (End worker id Whole)) job self.new }
        ensures prepared { (job : Clone) → IsPrepared job self.old → IsPrepared job self.new }
        ensures fewer { left_in self.new < left_in self.old }
    {
        self.rounds.passed(write);
    }
}

// How many writes to check the issue of such a draw adds.
pub(crate) fn added_by(job: &SubJob, kind: IssueKind) -> usize
    ensures { result ≡ added_by job.now kind }
{
    match kind {
        IssueKind::Write => usize::from(has_rounds(job)),
        IssueKind::Read | IssueKind::ReadCheck => 0,
    }
}

// The write that is issued, where the draw is one.
fn written(kind: IssueKind, write: WriteId) -> Option<WriteId>
    ensures write { kind ≡ issue.Write → result ≡ Some write }
    ensures read { kind ≡ issue.Read → result ≡ None }
    ensures checked { kind ≡ issue.ReadCheck → result ≡ None }
{
    match kind {
        IssueKind::Write => Some(write),
        IssueKind::Read | IssueKind::ReadCheck => None,
    }
}

// Whether the clone's writes are checked in rounds.
pub(crate) fn has_rounds(job: &SubJob) -> bool
    ensures { result ≡ has_rounds job.now }
{
    job.verifies()
}
