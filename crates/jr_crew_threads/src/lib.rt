// Who carries out a run: what workers and verifiers begin with and what they bring back, each with its part of the hand-over, and what
// another thread has of a run. The parts come together at the end: what verifiers took is what workers put.
#![tactic(auto)]

mod brought;
mod channels;
mod crowd;
mod diagnoses;
mod halts;
mod ledgers;
mod naming;
mod progress;
mod rooms;
mod shares;
mod staff;
mod turns;
mod watch;

pub use brought::{Books, Judged, Judgements, Judges, Worked, WorkerEnd, books_of};
pub use channels::{ChannelEnd, ChannelPart};
pub use crowd::Crowd;
pub use diagnoses::{Diagnoses, MOST_DIAGNOSED, note_alone, note_bad};
pub use halts::Halt;
pub use ledgers::{Recorded, none_recorded, record_alone, record_due, record_rest};
pub use naming::Naming;
pub use progress::{Progress, note_start, note_verdict};
pub use rooms::fit_buffer;
pub use shares::{MOST_BYTES, MOST_IOS, Shares};
pub use staff::{Seat, Verifier, Verifiers, Worker, parcel_room, push, staff_for};
pub use turns::Turns;
pub use watch::{StopFlag, StopRequest, Watch, asked_at};
