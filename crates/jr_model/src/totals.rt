/// What a clone did in a run. Bytes and counts are of I/Os that ended whole.
#[derive(Clone, Copy, Debug, PartialEq, Eq)]
pub struct Totals {
    pub reads: u64,
    pub rbytes: u64,
    pub writes: u64,
    pub wbytes: u64,
    /// Verdicts, good and bad. A void one is none of these.
    pub checks: u64,
    pub good: u64,
    pub bad: u64,
    /// Writes that weren't checked, since another write took some of their blocks.
    pub skipped: u64,
    /// Checks that say nothing, since a write overlapped them while both were in flight. 0 if no clone declines.
    pub void: u64,
    /// I/Os and checks that failed or ended short.
    pub faults: u64,
}
