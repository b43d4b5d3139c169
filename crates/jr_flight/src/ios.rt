use jr_model::{Dir, IoId, Piece};
use thiserror::Error;

/// An I/O of a job, or a check, that may be in flight. A check is a read.
#[derive(Clone, Copy, Debug, PartialEq, Eq)]
pub struct Io {
    /// Its number, which no other I/O in flight has.
    pub id: IoId,
    /// The clone that issued it.
    pub clone: u32,
    pub piece: Piece,
    pub dir: Dir,
    /// Whether its clone declines to wait (`serialize_overlap=0`).
    pub declines: bool,
}

/// An I/O out of flight (or in it), and whether a write overlapped it meanwhile.
#[derive(Clone, Copy, Debug, PartialEq, Eq)]
pub struct Ended {
    pub io: Io,
    pub raced: bool,
}

/// Why nothing ended.
#[derive(Clone, Copy, Debug, PartialEq, Eq, Error)]
pub enum FlightFault {
    /// No I/O of this number is in flight.
    #[error("no I/O of this number is in flight")]
    Stranger,
}
