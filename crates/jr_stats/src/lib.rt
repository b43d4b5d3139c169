// What a run prints: its report, of the totals of its clones and its miscompares, and its trace.
#![tactic(auto)]

mod reports;
mod traces;

pub use jr_replay_traces::{accepted_is_a_trace, check_trace, numbers_fit, trace_is_accepted};
pub use jr_report_lines::{
    bads_in_order, each_has_one_line, lines_are_in_order, lines_are_sorted, push_totals_line,
    totals_text,
};
pub use jr_run_faults::TraceFault;
pub use reports::report;
pub use traces::trace;
