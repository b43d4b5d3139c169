// The limits of a run, as its README and `docs/FORMATS.md` say them.

/// The unit in which pieces are cut and last writes are kept, in bytes.
pub const SECTOR: u32 = 512;

/// The largest block size of a job, in bytes (16 MiB).
pub const LARGEST_BLOCK: u32 = 16_777_216;

/// The furthest that a job's region may reach into a file, in bytes (1 PiB).
pub const LARGEST_END: u64 = 1_125_899_906_842_624;

/// The most clones of a run.
pub const MOST_CLONES: usize = 64;

/// The most cells of a clone.
pub const MOST_CELLS: u32 = 16_777_216;

/// The most cells that the passes of all clones of a run may visit, all together.
pub const MOST_WORK: u64 = 1_073_741_824;

/// The most passes of a clone.
pub const MOST_PASSES: u32 = 1000;

/// The most I/Os of a clone that may be in flight.
pub const MOST_DEPTH: u32 = 256;

/// The most threads of a run that judge checks beside the workers.
pub const MOST_VERIFIERS: u32 = 16;

/// The most bytes that a job file may have (1 MiB).
pub const LONGEST_TEXT: usize = 1_048_576;
