use crate::jobs::Job;
use crate::lines::{is_global, shown};
use jr_job_options::{JobOptions, Shape};
use jr_model::{
    EngineKind, LARGEST_BLOCK, LARGEST_END, MOST_CELLS, MOST_CLONES, MOST_WORK, SECTOR,
};
use jr_options::JobFault;
use jr_plan::Split;
use jr_text::Section;
use std::alloc::{AllocError, Global};

// The most names of jobs that a note has.
const MOST_NAMES: usize = 3;

// Says that no job is planned, and which there are.
pub(crate) fn add_unplanned(
    alloc: Global,
    texts: &mut Vec<String>,
    sections: &[Section],
) -> Result<(), AllocError> {
    let names = names(alloc, sections)?;
    let text = if names.is_empty() {
        String::from_str(
            alloc,
            "[global] alone is no job; instead: a heading [NAME] with its lines",
        )?
    } else {
        format!(in alloc; "no job of this name; instead: one of{names}")?
    };
    texts.push(text)?;
    Ok(())
}

// The names of the first jobs, each behind a space.
fn names(alloc: Global, sections: &[Section]) -> Result<String, AllocError> {
    let mut names = String::new(alloc);
    let mut count = 0usize;
    for section in sections {
        if !is_global(section) {
            if count == MOST_NAMES {
                names.push_str(" ..")?;
                return Ok(names);
            }
            count = count.saturating_add(1);
            let name = shown(alloc, section.name())?;
            names.push_str(" [")?;
            names.push_str(name.as_str())?;
            names.push(']')?;
        }
    }
    Ok(names)
}

// Says of each job that is at fault by itself what is wrong with it, unless a refused line may say otherwise.
pub(crate) fn add_own(
    alloc: Global,
    texts: &mut Vec<String>,
    jobs: &[Job],
) -> Result<(), AllocError> {
    for job in jobs {
        if let Err(fault) = job.options.shape(job.line)
            && job.open.keeps(fault)
        {
            let text = own_text(alloc, job, fault)?;
            add(alloc, texts, job, text)?;
        }
    }
    Ok(())
}

// Adds a text of a job, which the line of its heading and its name begin.
fn add(alloc: Global, texts: &mut Vec<String>, job: &Job, text: String) -> Result<(), AllocError> {
    let (line, name) = (job.line, job.name.as_str());
    texts.push(format!(in alloc; "line {line}: [{name}]: {text}")?)?;
    Ok(())
}

fn own_text(alloc: Global, job: &Job, fault: JobFault) -> Result<String, AllocError> {
    match fault {
        JobFault::MissingSize(_) => String::from_str(
            alloc,
            "no size; instead: a line size=.., here or in [global] above",
        ),
        JobFault::NoPattern(_) => String::from_str(
            alloc,
            "verify=pattern without a pattern; instead: a line verify_pattern=0x..",
        ),
        _ => block_text(alloc, &job.options),
    }
}

// Which size or place of a job no blocks fit.
fn block_text(alloc: Global, options: &JobOptions) -> Result<String, AllocError> {
    let sector = u64::from(SECTOR);
    let offset = options.offset;
    if offset % sector != 0 {
        return format!(in alloc; "offset {offset}; instead: a multiple of 512");
    }
    let step = options.offset_step;
    if step % sector != 0 {
        return format!(in alloc; "offset_increment {step}; instead: a multiple of 512");
    }
    let sizes = sizes(alloc, options)?;
    size_text(alloc, options, sizes.as_slice())
}

// Which of these block sizes of a job is none, or isn't a multiple of the least; else its interval that doesn't fit, else its size.
fn size_text(alloc: Global, options: &JobOptions, sizes: &[u32]) -> Result<String, AllocError> {
    if let Some(size) = sizes.iter().find(|size| !is_block(**size)) {
        return format!(in alloc;
            "a block size of {size} bytes; instead: a multiple of 512 up to 16777216"
        );
    }
    let least = sizes.iter().copied().min().unwrap_or(SECTOR);
    if let Some(size) = sizes.iter().find(|size| size.checked_rem(least) != Some(0)) {
        return format!(in alloc;
            "block sizes of {least} and {size} bytes; instead: multiples of the least"
        );
    }
    let interval = options.interval;
    if !options.kind.fits_interval(interval, least) {
        return format!(in alloc;
            "verify_interval {interval} with blocks of {least} bytes; instead: blocks of whole intervals"
        );
    }
    let size = options.size.unwrap_or(0);
    format!(in alloc; "size {size} is less than a block; instead: at least {least} bytes")
}

fn is_block(size: u32) -> bool {
    SECTOR <= size && size % SECTOR == 0 && size <= LARGEST_BLOCK
}

// The block sizes of the directions that a job has.
fn sizes(alloc: Global, options: &JobOptions) -> Result<Vec<u32>, AllocError> {
    let mut sizes = Vec::new(alloc);
    if options.io_type.has_reads() {
        let reads = options
            .read_split
            .unwrap_or(Split::single(options.read_size));
        add_sizes(&mut sizes, &reads)?;
    }
    if options.io_type.has_writes() {
        let writes = options
            .write_split
            .unwrap_or(Split::single(options.write_size));
        add_sizes(&mut sizes, &writes)?;
    }
    Ok(sizes)
}

// Adds the sizes that a split gives at all.
fn add_sizes(sizes: &mut Vec<u32>, split: &Split) -> Result<(), AllocError> {
    for (size, percent) in split.entries() {
        if *percent != 0 {
            sizes.push(*size)?;
        }
    }
    Ok(())
}

// Says what is wrong with sound jobs together, and from which on. Jobs of which a refused line may say otherwise are left out.
pub(crate) fn add_joint(
    alloc: Global,
    texts: &mut Vec<String>,
    jobs: &[Job],
) -> Result<(), AllocError> {
    add_engines(alloc, texts, jobs)?;
    add_clones(alloc, texts, jobs)?;
    for job in jobs {
        if job.open.has_region()
            && let Ok(shape) = job.options.shape(job.line)
        {
            add_long(alloc, texts, job, &shape)?;
        }
    }
    add_work(alloc, texts, jobs)
}

// The first job whose engine is of another kind than that of the first of all.
fn add_engines(alloc: Global, texts: &mut Vec<String>, jobs: &[Job]) -> Result<(), AllocError> {
    let Some(first) = jobs.iter().find(|job| job.open.has_engine()) else {
        return Ok(());
    };
    let kind = first.options.engine;
    for job in jobs {
        if job.open.has_engine() && !is_same(kind, job.options.engine) {
            let (here, there) = (engine_word(job.options.engine), engine_word(kind));
            let (name, line) = (first.name.as_str(), first.line);
            let text = format!(in alloc;
                "engine {here}, and {there} in [{name}] of line {line}; instead: one kind in all"
            )?;
            return add(alloc, texts, job, text);
        }
    }
    Ok(())
}

fn is_same(one: EngineKind, other: EngineKind) -> bool {
    matches!(
        (one, other),
        (EngineKind::File, EngineKind::File)
            | (EngineKind::Memory, EngineKind::Memory)
            | (EngineKind::Null, EngineKind::Null)
    )
}

fn engine_word(kind: EngineKind) -> &'static str {
    match kind {
        EngineKind::File => "file",
        EngineKind::Memory => "memory",
        EngineKind::Null => "null",
    }
}

// The job with which there are too many clones.
fn add_clones(alloc: Global, texts: &mut Vec<String>, jobs: &[Job]) -> Result<(), AllocError> {
    let mut clones: u64 = 0;
    for job in jobs {
        if job.open.has_region() {
            clones = clones.saturating_add(u64::from(job.options.clones));
        }
        if clones > MOST_CLONES as u64 {
            let text = format!(in alloc;
                "{clones} clones up to here; instead: at most 64 in all, by numjobs"
            )?;
            return add(alloc, texts, job, text);
        }
    }
    Ok(())
}

// A job that reaches too far, or whose clones have too many blocks.
fn add_long(
    alloc: Global,
    texts: &mut Vec<String>,
    job: &Job,
    shape: &Shape,
) -> Result<(), AllocError> {
    let end = end_of(&job.options, shape);
    if end > u128::from(LARGEST_END) {
        let text = format!(in alloc;
            "its last clone ends at {end}; instead: at most 1125899906842624 (2^50)"
        )?;
        add(alloc, texts, job, text)?;
    }
    let (cells, cell) = (shape.cells, shape.cell);
    if cells > u64::from(MOST_CELLS) {
        let text = format!(in alloc;
            "{cells} blocks of {cell} bytes; instead: at most 16777216, by bs or size"
        )?;
        add(alloc, texts, job, text)?;
    }
    Ok(())
}

// Where the last clone of a job ends.
fn end_of(options: &JobOptions, shape: &Shape) -> u128 {
    let steps = u128::from(options.offset_step).saturating_mul(u128::from(
        options.clones.saturating_sub(1),
    ));
    u128::from(options.offset)
        .saturating_add(steps)
        .saturating_add(u128::from(shape.size))
}

// The job with which there are too many blocks in all passes.
fn add_work(alloc: Global, texts: &mut Vec<String>, jobs: &[Job]) -> Result<(), AllocError> {
    let mut work: u128 = 0;
    for job in jobs {
        if job.open.has_region()
            && let Ok(shape) = job.options.shape(job.line)
        {
            work = work.saturating_add(visits(&job.options, &shape));
            if work > u128::from(MOST_WORK) {
                let text = format!(in alloc;
                    "{work} blocks of all loops up to here; instead: at most 1073741824 in all"
                )?;
                return add(alloc, texts, job, text);
            }
        }
    }
    Ok(())
}

// How many cells all passes of all clones of a job visit.
fn visits(options: &JobOptions, shape: &Shape) -> u128 {
    u128::from(shape.cells)
        .saturating_mul(u128::from(options.passes))
        .saturating_mul(u128::from(options.clones))
}

// Says which jobs have a pattern or a backlog and verify nothing, which only read and don't check what they read, and of which fio means
// something else.
pub(crate) fn plan_texts(alloc: Global, jobs: &[Job]) -> Result<Vec<String>, AllocError> {
    let mut texts = Vec::new(alloc);
    for job in jobs {
        add_unchecked(alloc, &mut texts, job)?;
        add_meant(alloc, &mut texts, job)?;
    }
    Ok(texts)
}

fn add_unchecked(alloc: Global, texts: &mut Vec<String>, job: &Job) -> Result<(), AllocError> {
    if !job.said.verify
        && let Some(key) = idle_key(&job.options)
    {
        let text = format!(in alloc;
            "{key} without verify: nothing is checked; instead: verify=pattern or verify=md5"
        )?;
        add(alloc, texts, job, text)?;
    }
    if leaves_reads(&job.options) {
        let text = String::from_str(
            alloc,
            "do_verify=0, and nothing is written: nothing is checked; instead: do_verify=1",
        )?;
        add(alloc, texts, job, text)?;
    }
    Ok(())
}

// Says what fio means otherwise.
fn add_meant(alloc: Global, texts: &mut Vec<String>, job: &Job) -> Result<(), AllocError> {
    for text in [cache_text(job), repeat_text(job), null_text(job)] {
        if let Some(text) = text {
            add(alloc, texts, job, String::from_str(alloc, text)?)?;
        }
    }
    Ok(())
}

// `buffered` is the other word for `direct` in fio.
fn cache_text(job: &Job) -> Option<&'static str> {
    match (job.said.direct, job.said.fio_direct) {
        (false, true) => Some(
            "buffered=0 says nothing here: files go through the cache; instead: direct=1, as fio means it",
        ),
        (true, false) => Some(
            "buffered=1 says nothing here: files go past the cache; instead: direct=0, as fio means it",
        ),
        _ => None,
    }
}

fn repeat_text(job: &Job) -> Option<&'static str> {
    if job.said.repeats {
        None
    } else {
        Some(
            "randrepeat=0 says nothing here: each run draws and writes the same; instead: another randseed for each run",
        )
    }
}

fn null_text(job: &Job) -> Option<&'static str> {
    let is_null = matches!(job.options.engine, EngineKind::Null);
    if is_null && job.options.kind.is_verified() && job.options.checks_writes {
        Some(
            "verify over ioengine=null: what is checked is all zeros, where fio checks nothing; instead: memory, or verify=0",
        )
    } else {
        None
    }
}

// Whether a job says how its blocks are verified, and neither writes nor checks any.
fn leaves_reads(options: &JobOptions) -> bool {
    options.kind.is_verified() && !options.checks_writes && !options.io_type.has_writes()
}

// The key that does nothing without `verify`.
fn idle_key(options: &JobOptions) -> Option<&'static str> {
    if options.kind.is_verified() {
        None
    } else if options.pattern.is_some() {
        Some("verify_pattern")
    } else if options.backlog != 0 {
        Some("verify_backlog")
    } else {
        None
    }
}
