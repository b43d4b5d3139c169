//! What stands in a block that came back wrong in place of what its write put there: by the bytes read.
#![tactic(auto)]

mod bits;
mod diagnoses;
mod headers;
mod rulings;
mod sectors;
mod texts;

pub use bits::{Flips, flips_between};
pub use diagnoses::{Diagnosis, diagnosis_of, own_diagnosis_of};
pub use headers::{BlockHeader, header_in};
pub use rulings::{Diagnosed, diagnose};
pub use texts::{found_of, text_of};
