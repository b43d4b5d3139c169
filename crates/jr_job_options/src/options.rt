ghost use Rattle.std.specs.Prelude.{◌≡◌, IfOk, Ok};
ghost use Rattle.jr_job_options.specs.Lookups.{options_in};
ghost use Rattle.jr_job_options.specs.Settings.{IsInRange};
ghost use Rattle.jr_job_options.specs.Options.{AreInRange, default_options, with_setting, options_from};

use crate::faults::JobFault;
use crate::settings::{Setting, setting_of};
use jr_model::{EngineKind, IoType, Pattern, VerifyKind};
use jr_plan::Split;
use jr_text::Line;

/// What the option lines of a job say, but for the names of its files.
#[derive(Clone, Copy)]
pub struct JobOptions {
    /// What it reads and writes, and in which order (`rw`).
    pub io_type: IoType,
    /// The percentage of reads, if the type mixes both (`rwmixread`, `rwmixwrite`).
    pub read_percent: u8,
    /// The block size of reads (`bs`), which counts if `bssplit` gives none.
    pub read_size: u32,
    /// The block size of writes (`bs`), which counts if `bssplit` gives none.
    pub write_size: u32,
    /// The block sizes of reads and their percentages (`bssplit`).
    pub read_split: Option<Split>,
    /// The block sizes of writes and their percentages (`bssplit`).
    pub write_split: Option<Split>,
    /// How many bytes each clone has (`size`).
    pub size: Option<u64>,
    /// Where the first clone begins (`offset`).
    pub offset: u64,
    /// How far each clone begins behind the one before (`offset_increment`).
    pub offset_step: u64,
    /// How many clones there are (`numjobs`).
    pub clones: u32,
    /// How often each goes over its region (`loops`).
    pub passes: u32,
    /// How many I/Os of each may be in flight (`iodepth`).
    pub depth: u32,
    /// Whether a random pass visits each cell once (not `norandommap`).
    pub has_map: bool,
    /// What the generators are seeded from (`randseed`).
    pub seed: u64,
    /// Whether the job waits for all jobs above it (`stonewall`).
    pub stonewall: bool,
    /// What carries out its I/O (`ioengine`).
    pub engine: EngineKind,
    /// How its writes are verified (`verify`).
    pub kind: VerifyKind,
    /// What its writes contain (`verify_pattern`).
    pub pattern: Option<Pattern>,
    /// The bytes from one header of a block to the next; 0 is one header for the block (`verify_interval`).
    pub interval: u32,
    /// After how many writes they are checked; 0 is after all of a pass (`verify_backlog`).
    pub backlog: u32,
    /// How many threads judge checks; with 0 the workers do (`verify_async`).
    pub verifiers: u32,
    /// Whether a bad verdict halts a clone (`verify_fatal`).
    pub is_fatal: bool,
    /// Whether its writes are read back (`do_verify`).
    pub checks_writes: bool,
    /// Whether its I/Os wait for none that they overlap (not `serialize_overlap`, if that is given).
    pub declines: bool,
    /// Whether its I/O is to go past the system's cache (`direct`).
    pub direct: bool,
}

impl JobOptions {
    /// What counts if no line says otherwise.
    pub fn new() -> JobOptions
        ensures value { result ≡ default_options }
        ensures range { AreInRange result }
    {
        JobOptions {
            io_type: IoType::Read,
            read_percent: 50,
            read_size: 4096,
            write_size: 4096,
            read_split: None,
            write_split: None,
            size: None,
            offset: 0,
            offset_step: 0,
            clones: 1,
            passes: 1,
            depth: 1,
            has_map: true,
            seed: 1,
            stonewall: false,
            engine: EngineKind::File,
            kind: VerifyKind::Plain,
            pattern: None,
            interval: 0,
            backlog: 0,
            verifiers: 0,
            is_fatal: false,
            checks_writes: true,
            declines: false,
            direct: false,
        }
    }

    // These options after one more line, which wins over earlier ones of its key.
    fn with(self, setting: Setting) -> JobOptions
        requires range { AreInRange self }
        requires new_range { IsInRange setting }
        ensures value { result ≡ with_setting self setting }
        ensures range { AreInRange result }
    {
        let mut options = self;
        match setting {
            Setting::IoType(io_type) => options.io_type = io_type,
            Setting::ReadPercent(percent) => options.read_percent = percent,
            Setting::BlockSizes(reads, writes) => {
                options.read_size = reads;
                options.write_size = writes;
            }
            Setting::Splits(reads, writes) => {
                options.read_split = reads;
                options.write_split = writes;
            }
            Setting::Size(size) => options.size = Some(size),
            Setting::Offset(offset) => options.offset = offset,
            Setting::OffsetStep(step) => options.offset_step = step,
            Setting::Clones(clones) => options.clones = clones,
            Setting::Passes(passes) => options.passes = passes,
            Setting::Depth(depth) => options.depth = depth,
            Setting::HasMap(has_map) => options.has_map = has_map,
            Setting::Seed(seed) => options.seed = seed,
            Setting::Stonewall(stonewall) => options.stonewall = stonewall,
            Setting::Engine(engine) => options.engine = engine,
            Setting::Verify(kind) => options.kind = kind,
            Setting::Pattern(pattern) => options.pattern = Some(pattern),
            Setting::Interval(interval) => options.interval = interval,
            Setting::Backlog(backlog) => options.backlog = backlog,
            Setting::Verifiers(verifiers) => options.verifiers = verifiers,
            Setting::Fatal(is_fatal) => options.is_fatal = is_fatal,
            Setting::Checks(checks_writes) => options.checks_writes = checks_writes,
            Setting::Declines(declines) => options.declines = declines,
            Setting::Direct(direct) => options.direct = direct,
            Setting::Nothing => {}
        }
        options
    }

    /// These options after more lines, or the first fault in them.
    pub fn with_lines(self, lines: &[Line]) -> Result<JobOptions, JobFault>
        requires range { AreInRange self }
        ensures value { result ≡ options_from (Ok self) lines.now }
        ensures range { IfOk result AreInRange }
        // Where nothing was said before, each option is what the last line of its keys says.
        ensures lookups { self ≡ default_options → IfOk result (λ options. options ≡ options_in lines.now) }
    {
        let mut options = self;
        for line in lines {
            match setting_of(line) {
                Ok(setting) => options = options.with(setting),
                Err(fault) => return Err(fault),
            }
        }
        Ok(options)
    }
}
