// Who carries out a run: one worker that waits for nobody, or many at once, with verifiers beside them or without.
#![tactic(auto)]

mod crew;
mod held;
mod outcomes;
mod ran;
mod serial;
mod verifier;
mod work;

pub use crew::{Booked, run_booked};
pub use jr_crew_books::{Book, Done};
pub use jr_crew_threads::{Progress, StopFlag, StopRequest, Watch};
pub use jr_run_faults::RunFault;
pub use ran::{Ran, run};
pub use serial::{SerialRun, run_serial, run_serial_asked};
