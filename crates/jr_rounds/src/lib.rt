// Rounds: a job that runs again and again, each time with other seeds. The plan of a round, what is printed of it, what was done in it and
// which blocks were bad; the sums over all rounds, the loop, and how far it may go.
#![tactic(auto)]

mod blocks;
mod durations;
mod ends;
mod faults;
mod json;
mod laws;
mod limits;
mod originals;
mod repeats;
mod runner;
mod seeds;
mod sums;
mod texts;

pub use blocks::{add_blocks, round_blocks};
pub use durations::{MOST_SECONDS, duration_seconds};
pub use ends::RoundsEnd;
pub use faults::RoundsFault;
pub use json::{round_json, round_line, sums_json};
pub use laws::{first_round_is_the_plan, no_seed_twice, rounds_differ_in_seeds};
pub use limits::Limits;
pub use originals::totals_by_original;
pub use repeats::run_rounds;
pub use runner::RoundRunner;
pub use seeds::{SEED_STEP, plan_of_round, seed_offset};
pub use sums::{Sums, total_of};
pub use texts::{is_bad, push_round_header, sums_text, tell_round, tell_sums};
