// Laws over the definitions alone. Each function does nothing: its contract is the law, so that the
// check proves it.
ghost use Rattle.jr_replay_traces.specs.TraceLaws.{AcceptedIsATrace, NumbersFit, TraceIsAccepted};

/// In the lines of a legal history of a plan all numbers but the workers' are below 2^32.
pub fn numbers_fit()
    ensures { NumbersFit }
{}

/// The trace of a whole legal run of a plan is accepted, with the totals of that run.
pub fn trace_is_accepted()
    ensures { TraceIsAccepted }
{}

/// A text that is accepted is the trace of a whole legal run, and the totals are that run's.
pub fn accepted_is_a_trace()
    ensures { AcceptedIsATrace }
{}
