use jr_crew_threads::StopRequest;

/// Shows that a run was asked to stop, and did so before it was complete: it is made of a `StopRequest`, and of nothing else. The flag
/// may be gone.
#[derive(Drop)]
pub struct Interrupted {
    shown: (),
}

impl Interrupted {
    pub(crate) fn by(_request: StopRequest<'_>) -> Interrupted {
        Interrupted { shown: () }
    }
}
