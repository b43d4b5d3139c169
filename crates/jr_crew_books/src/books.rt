use jr_model::{IoId, Outcome, Ticket, Verdict};

/// What a worker completed: how it ended, and what the worker said of it if it judges its own checks.
#[derive(Clone, Copy, PartialEq, Eq)]
pub struct Done {
    pub ticket: Ticket,
    pub outcome: Outcome,
    pub verdict: Option<Verdict>,
}

/// What a verifier said of a check.
#[derive(Clone, Copy, PartialEq, Eq)]
pub struct Said {
    pub io: IoId,
    pub verdict: Verdict,
}
