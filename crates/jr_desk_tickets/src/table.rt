ghost use Rattle.std.specs.Prelude.{◌≡◌, ◌<◌, ◌^◌, ◌++◌, ℕ, true, false, List, [], drop, length, slice_get, is_some, Some, OnOk, IsTrue, IsFalse, vec_len, vec_capacity};
ghost use Rattle.std.specs.Option.{option_copied, option_map, option_to_list};
ghost use Rattle.jr_model.specs.declared.events.Event.{Event};
ghost use Rattle.jr_model.specs.declared.events.Event.TheVariants.{End, Verdict};
ghost use Rattle.jr_model.specs.declared.events.Started.{Started};
ghost use Rattle.jr_model.specs.declared.events.Verdict.{Verdict as GivenVerdict};
ghost use Rattle.jr_model.specs.History.{started, started_by, outcome_of, ended_whole, is_judged};
ghost use Rattle.jr_model.specs.Legal.{is_legal};
ghost use Rattle.jr_model.specs.Plan.{Plan as Planned};
ghost use Rattle.jr_model.specs.Races.{has_raced};
ghost use Rattle.jr_desk_tickets.specs.Handing.{IsHanded, header_in};
ghost use Rattle.jr_desk_tickets.specs.Kept.{IsOwn, tickets_of};
ghost use Rattle.jr_laws_steps.specs.Nexts.{IsNext, grown};
ghost use Rattle.jr_desk_tickets.specs.Tickets.{ticket_of};

use crate::launches::Launch;
use jr_model::{Expected, IoId, Memory, Outcome, Piece, Ticket, TicketKind};
use jr_plan::Plan;
use std::alloc::Global;

/// How far an I/O or check has come.
#[derive(Clone, Copy, Debug, PartialEq, Eq)]
pub enum IoState {
    /// It has not ended.
    InFlight,
    /// It ended with all its bytes, and has no verdict.
    EndedWhole,
    /// It ended with all its bytes, but a write overlapped it meanwhile, and it has no verdict.
    Raced,
    /// It failed, or ended short.
    Faulty,
    /// A check that ended whole and has its verdict.
    Judged,
}

/// What is kept of the tickets that were handed out, by number, and how far each has come.
///
/// Only `reserve` can want memory. A ticket is handed out when its event is told, and gets the next number.
#[derive(Drop)]
pub struct TicketTable {
    pub launches: Vec<Launch>,
    /// Of the headers that checks are judged by, the second halves, in the order of the checks that are.
    pub headers: Vec<[u8; 32]>,
    pub states: Vec<IoState>,
}

impl TicketTable {
    /// None was handed out.
    pub fn new(alloc: Global) -> TicketTable
        ensures { (plan : Planned) → IsHanded plan [] result }
    {
        TicketTable {
            launches: Vec::new(alloc),
            headers: Vec::new(alloc),
            states: Vec::new(alloc),
        }
    }

    /// Makes room for one more. Nothing else changes, whether it is refused or not.
    pub fn reserve(&mut self) -> Result<(), Memory>
        ensures launches { self.new.launches.items ≡ self.old.launches.items }
        ensures headers { self.new.headers.items ≡ self.old.headers.items }
        ensures states { self.new.states.items ≡ self.old.states.items }
        ensures launch_room { OnOk result (vec_len self.new.launches < vec_capacity self.new.launches) }
        ensures header_room { OnOk result (vec_len self.new.headers < vec_capacity self.new.headers) }
        ensures states_room { OnOk result (vec_len self.new.states < vec_capacity self.new.states) }
    {
        self.launches.reserve(1)?;
        self.headers.reserve(1)?;
        self.states.reserve(1)?;
        Ok(())
    }

    /// How many were handed out.
    pub fn count(&self) -> usize
        ensures { (plan : Planned) (history : List Event) → IsHanded plan history self.now → result ≡ length (started history) }
    {
        self.launches.len()
    }

    /// The ticket of this number, if it was handed out: made again of what is kept of it, the plan and the headers.
    pub fn ticket(&self, plan: &Plan, id: IoId) -> Option<Ticket>
        ensures { (history : List Event) → IsHanded plan.now history self.now → result ≡ slice_get (tickets_of plan.now history) id }
    {
        match self.launch(id) {
            None => None,
            Some(launch) => Some(launch.ticket(plan, &self.headers, id)),
        }
    }

    /// Whether this ticket is the one that was handed out under its number.
    pub fn is_own(&self, plan: &Plan, ticket: &Ticket) -> bool
        ensures yes { (history : List Event) → IsHanded plan.now history self.now → IsTrue result → IsOwn plan.now history ticket.now }
        ensures no { (history : List Event) → IsHanded plan.now history self.now → IsFalse result → ¬ IsOwn plan.now history ticket.now }
    {
        match self.launch(ticket.id) {
            None => false,
            Some(launch) => launch.is_of(plan, &self.headers, ticket),
        }
    }

    /// The seed of the ticket of this number, if it was handed out.
    pub fn seed(&self, id: IoId) -> Option<u64>
        ensures { (plan : Planned) (history : List Event) → IsHanded plan history self.now
            → result ≡ option_map (λ ticket. ticket.seed) (slice_get (tickets_of plan history) id) }
    {
        match self.launch(id) {
            None => None,
            Some(launch) => Some(launch.seed),
        }
    }

    /// The worker that it was handed out to.
    pub fn worker(&self, id: IoId) -> Option<u32>
        ensures { (plan : Planned) (history : List Event) → IsHanded plan history self.now
            → result ≡ option_map (λ ticket. ticket.worker) (slice_get (tickets_of plan history) id) }
    {
        match self.launch(id) {
            None => None,
            Some(launch) => Some(launch.worker),
        }
    }

    /// Its kind.
    pub fn kind(&self, id: IoId) -> Option<TicketKind>
        ensures { (plan : Planned) (history : List Event) → IsHanded plan history self.now
            → result ≡ option_map (λ ticket. ticket.kind) (slice_get (tickets_of plan history) id) }
    {
        match self.launch(id) {
            None => None,
            Some(launch) => Some(launch.kind),
        }
    }

    /// Its piece.
    pub fn piece(&self, id: IoId) -> Option<Piece>
        ensures { (plan : Planned) (history : List Event) → IsHanded plan history self.now
            → result ≡ option_map (λ ticket. ticket.piece) (slice_get (tickets_of plan history) id) }
    {
        match self.launch(id) {
            None => None,
            Some(launch) => Some(launch.piece()),
        }
    }

    // What is kept of it.
    fn launch(&self, id: IoId) -> Option<&Launch>
        ensures { option_copied result ≡ slice_get self.now.launches.items id }
    {
        self.launches.get(id as usize)
    }

    /// Whether the I/O of this number has ended.
    pub fn has_ended(&self, id: IoId) -> bool
        ensures { (plan : Planned) (history : List Event) → is_legal plan history ≡ true → IsHanded plan history self.now
            → result ≡ is_some (outcome_of history id) }
    {
        match self.states.get(id as usize) {
            None => false,
            Some(states) => *states != IoState::InFlight,
        }
    }

    /// Whether it ended with all its bytes.
    pub fn has_ended_whole(&self, id: IoId) -> bool
        ensures { (plan : Planned) (history : List Event) → is_legal plan history ≡ true → IsHanded plan history self.now
            → result ≡ ended_whole (outcome_of history id) }
    {
        match self.states.get(id as usize) {
            None => false,
            Some(states) => matches!(
                *states,
                IoState::EndedWhole | IoState::Raced | IoState::Judged
            ),
        }
    }

    /// Whether a write overlapped it while both were in flight. This is kept of one that ended whole, until its verdict.
    pub fn has_raced(&self, id: IoId) -> bool
        ensures { (plan : Planned) (history : List Event) → is_legal plan history ≡ true → IsHanded plan history self.now
            → ended_whole (outcome_of history id) ≡ true → is_judged history id ≡ false
            → result ≡ has_raced history id }
    {
        match self.states.get(id as usize) {
            None => false,
            Some(states) => *states == IoState::Raced,
        }
    }

    /// Whether it has its verdict.
    pub fn is_judged(&self, id: IoId) -> bool
        ensures { (plan : Planned) (history : List Event) → is_legal plan history ≡ true → IsHanded plan history self.now
            → result ≡ is_judged history id }
    {
        match self.states.get(id as usize) {
            None => false,
            Some(states) => *states == IoState::Judged,
        }
    }

    /// Hands out the ticket of what an event starts.
    pub fn hand(&mut self, ticket: &Ticket)
        requires launches { vec_len self.old.launches < vec_capacity self.old.launches }
        requires headers { vec_len self.old.headers < vec_capacity self.old.headers }
        requires states { vec_len self.old.states < vec_capacity self.old.states }
        requires few { length self.old.headers.items < 2 ^ 32 }
        ensures { (plan : Planned) (history : List Event) (event : Event) (io : Started) → IsNext plan history event
            → started_by event ≡ Some io → ticket.now ≡ ticket_of plan (length (started history), io)
            → IsHanded plan history self.old → IsHanded plan (grown history event) self.new }
    {
        let headers = self.headers.len() as u32;
        self.launches.push_reserved(Launch::of(ticket, headers));
        keep_header(&mut self.headers, &ticket.expected);
        self.states.push_reserved(IoState::InFlight);
    }

    /// Takes in how one ended, and whether it raced.
    pub fn end(&mut self, id: IoId, outcome: Outcome, raced: bool)
        requires { id < length self.old.states.items }
        ensures { (plan : Planned) (history : List Event) (worker : ℕ) → IsNext plan history (End worker id outcome)
            → raced ≡ has_raced history id
            → IsHanded plan history self.old → IsHanded plan (grown history (End worker id outcome)) self.new }
    {
        self.states[id as usize] = match outcome {
            Outcome::Whole if raced => IoState::Raced,
            Outcome::Whole => IoState::EndedWhole,
            Outcome::Failed | Outcome::Short(_) => IoState::Faulty,
        };
    }

    /// Takes in that one got its verdict.
    pub fn judge(&mut self, id: IoId)
        requires { id < length self.old.states.items }
        ensures { (plan : Planned) (history : List Event) (worker : ℕ) (verdict : GivenVerdict)
            → IsNext plan history (Verdict worker id verdict)
            → IsHanded plan history self.old → IsHanded plan (grown history (Verdict worker id verdict)) self.new }
    {
        self.states[id as usize] = IoState::Judged;
    }
}

// Keeps the second half of the header that bytes are judged by, if they are by one. There is room for it.
fn keep_header(headers: &mut Vec<[u8; 32]>, expected: &Expected)
    requires { vec_len headers.old < vec_capacity headers.old }
    ensures { headers.new.items ≡ headers.old.items ++ option_to_list (header_in expected.now) }
{
    match expected {
        Expected::Nothing => {}
        Expected::Pattern(_) => {}
        Expected::Seed(_) => {}
        Expected::Header(header) => headers.push_reserved(second_half(header)),
    }
}

fn second_half(header: &[u8; 64]) -> [u8; 32]
    ensures { result ≡ drop 32 header.now }
{
    let mut back = [0; 32];
    back.copy_from_slice(&header[32..]);
    back
}
