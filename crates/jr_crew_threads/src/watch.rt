ghost use Rattle.std.specs.Prelude.{◌≡◌, None, IfSome};
ghost use Rattle.jr_crew_threads.specs.Stops.{WasAsked};

use crate::diagnoses::Diagnoses;
use crate::progress::Progress;
use jr_ledger_run::RunLedger;
use std::sync::{OnceLock, OnceToken};

/// Asks a run to stop. Any thread may set it, once or more often; it stays set.
#[derive(Drop)]
pub struct StopFlag {
    lock: OnceLock<()>,
}

/// Shows that a flag was set: only one that was gives it.
#[derive(Drop)]
pub struct StopRequest<'a> {
    token: OnceToken<'a, ()>,
}

impl StopFlag {
    /// Nobody has asked yet.
    pub fn new() -> StopFlag {
        StopFlag {
            lock: OnceLock::new(),
        }
    }

    /// Asks the run to stop: what is in flight ends and is judged, and nothing more is started.
    pub fn set(&self) {
        // (where that fails it is set already, or is being set)
        let _ = self.lock.try_set(());
    }

    /// What shows that somebody has asked, if anybody has.
    pub fn asked(&self) -> Option<StopRequest<'_>>
        ensures { IfSome result (λ request. request.token.of ≡ self.now.lock.id) }
    {
        match self.lock.witness() {
            Some(token) => Some(StopRequest { token }),
            None => None,
        }
    }

    /// Whether anybody has asked.
    pub fn is_set(&self) -> bool {
        self.asked().is_some()
    }
}

/// What another thread has of a run while it goes on.
#[derive(Clone, Copy, Drop)]
pub struct Watch<'a> {
    /// How far it is.
    pub progress: Option<&'a Progress>,
    /// The flag that asks it to stop.
    pub stop: Option<&'a StopFlag>,
    /// Where what stands in bad blocks is kept.
    pub diagnoses: Option<&'a Diagnoses>,
    /// The ledger of its writes.
    pub ledger: Option<&'a RunLedger>,
}

impl<'a> Watch<'a> {
    /// Nobody wants to know how far the run is, what stands in bad blocks or what was written, and nobody can stop it.
    pub fn none() -> Watch<'a>
        ensures progress { result.progress ≡ None }
        ensures stop { result.stop ≡ None }
    {
        Watch {
            progress: None,
            stop: None,
            diagnoses: None,
            ledger: None,
        }
    }
}

/// What shows that a run was asked to stop, if it was.
pub fn asked_at(stop: Option<&StopFlag>) -> Option<StopRequest<'_>>
    ensures { IfSome result (WasAsked stop.entry) }
{
    match stop {
        Some(flag) => flag.asked(),
        None => None,
    }
}
