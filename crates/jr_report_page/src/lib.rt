// The page of a run: what was run, what came of it, and where, as a document that a browser shows by itself.
#![tactic(auto)]

mod cells;
mod escapes;
mod heads;
mod laws;
mod maps;
mod pages;
mod plans;
mod rows;
mod settings;
mod status;
mod styles;
mod tables;

pub use escapes::push_escaped;
pub use heads::{push_head, push_tail};
pub use laws::{nothing_comes_raw, page_hides_nothing};
pub use pages::{PageFindings, page};
pub use plans::push_plan_table;
pub use rows::{push_file, push_number_cell, push_piece, push_text_cell};
pub use settings::{push_setting, push_surroundings};
pub use tables::{MOST_ROWS, push_more};
