ghost use Rattle.std.specs.Prelude.{◌≡◌};
ghost use Rattle.std.specs.List.{list_all};
ghost use Rattle.jr_desk_tickets.specs.Kept.{tickets_of};
ghost use Rattle.jr_crew_books.specs.Numbers.{is_own_verdict, is_worker_number, is_verifier_number, is_numbered};

use crate::account::Account;
use jr_model::Event;

/// Whether each verdict is that of the worker that the check was handed out to.
pub fn are_own_verdicts(account: &Account<'_>) -> bool
    ensures { result ≡ list_all (is_own_verdict (tickets_of account.now.plan account.now.history)) account.now.history }
{
    account
        .history()
        .iter()
        .all(|event| is_own_verdict(account, event))
}

fn is_own_verdict(account: &Account<'_>, event: &Event) -> bool
    ensures { result ≡ is_own_verdict (tickets_of account.now.plan account.now.history) event.now }
{
    match *event {
        Event::Verdict { worker, io, .. } => match account.worker(io) {
            Some(own) => own == worker,
            None => false,
        },
        _ => true,
    }
}

/// Whether each event has the number of one who does such: of one of so many workers, or of a verifier of the plan.
pub fn are_numbered(account: &Account<'_>, workers: usize) -> bool
    ensures { result ≡ list_all (is_numbered workers account.now.plan.verifiers) account.now.history }
{
    let verifiers = account.plan().verifiers();
    account
        .history()
        .iter()
        .all(|event| is_numbered(event, workers, verifiers))
}

fn is_numbered(event: &Event, workers: usize, verifiers: u32) -> bool
    ensures { result ≡ is_numbered workers verifiers event.now }
{
    match *event {
        Event::Issue { worker, .. } => is_worker_number(workers, worker),
        Event::Probe { worker, .. } => is_worker_number(workers, worker),
        Event::Skip { worker, .. } => is_worker_number(workers, worker),
        Event::End { worker, .. } => is_worker_number(workers, worker),
        Event::Verdict { worker, .. } => {
            if verifiers == 0 {
                is_worker_number(workers, worker)
            } else {
                is_verifier_number(workers, verifiers, worker)
            }
        }
    }
}

fn is_worker_number(workers: usize, number: u32) -> bool
    ensures { result ≡ is_worker_number workers number }
{
    (number as usize) < workers
}

fn is_verifier_number(workers: usize, verifiers: u32, number: u32) -> bool
    ensures { result ≡ is_verifier_number workers verifiers number }
{
    workers <= number as usize && (number as usize) - workers < verifiers as usize
}
