// The program over plain readers and writers: a plan in; a report, a trace and a status out.
#![tactic(auto)]

mod runs;

pub use jr_cli_ends::{
    Executed, Findings, Interrupted, RunEnd, Storage, json_text, list_text, list_text_with_faults,
};
pub use jr_cli_words::{
    BlockSize, Choice, CliFault, Wipe, Wiping, answer_words, choose, list_size, memory_or,
    print_plan, read_text, read_trace, workers_of,
};
pub use jr_crew::{Progress, StopFlag, StopRequest, Watch};
pub use runs::{execute, execute_serial, print_check, print_stopped_totals};
