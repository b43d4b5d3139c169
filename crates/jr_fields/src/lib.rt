//! Lines whose fields are divided by single spaces: a ledger's and a trace's are such lines.
#![tactic(auto)]

mod fields;

pub use fields::{field_at, field_count, field_is, number_at};
