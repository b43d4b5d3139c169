// The lines of a report: those of the totals of its clones, and those of its bad verdicts. And laws: which lines the bad verdicts of a run have
// in its report, and in which order. Nothing of those is run; each function's contract is a law, so that the check proves it.
#![tactic(auto)]

mod bads;
mod laws;
mod totals;

pub use bads::{bads_in_order, push_bads};
pub use laws::{each_has_one_line, lines_are_in_order, lines_are_sorted};
pub use totals::{push_totals_line, totals_text};
