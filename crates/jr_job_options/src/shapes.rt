ghost use Rattle.std.specs.Prelude.{◌≡◌, IfOk, Some};
ghost use Rattle.jr_job_options.specs.Shapes.{HasShape, options_fit, least_size, cell_of, shape_with, shape_in, shape_of};
ghost use Rattle.jr_model.specs.Tickets.{has_pattern};

use crate::faults::JobFault;
use crate::options::JobOptions;
use jr_model::{SECTOR, VerifyKind};
use jr_plan::Split;

/// How a job's region is cut: its cell, the number of cells, and the sizes of its I/Os.
#[derive(Clone, Copy)]
pub struct Shape {
    /// How many bytes each clone has; those behind the last cell aren't used.
    pub size: u64,
    /// The least of the block sizes, in bytes.
    pub cell: u32,
    /// How many cells the region of each clone has.
    pub cells: u64,
    /// The sizes of reads.
    pub reads: Split,
    /// The sizes of writes.
    pub writes: Split,
}

// The least size of a split that it gives at all.
fn least_size(split: &Split) -> u32
    ensures { result ≡ least_size split.now }
{
    let mut least = u32::MAX;
    for (size, percent) in split.entries() {
        if *percent != 0 {
            least = least.min(*size);
        }
    }
    least
}

impl JobOptions {
    // The least of the sizes in the directions that the job has.
    fn cell(&self, reads: &Split, writes: &Split) -> u32
        ensures { result ≡ cell_of self.now reads.now writes.now }
    {
        let least_read = if self.io_type.has_reads() {
            least_size(reads)
        } else {
            u32::MAX
        };
        let least_write = if self.io_type.has_writes() {
            least_size(writes)
        } else {
            u32::MAX
        };
        least_read.min(least_write)
    }

    fn fits(&self, cell: u32, reads: &Split, writes: &Split) -> bool
        ensures { result ≡ options_fit self.now cell reads.now writes.now }
    {
        let sector = u64::from(SECTOR);
        cell >= SECTOR
            && cell % SECTOR == 0
            && self.offset % sector == 0
            && self.offset_step % sector == 0
            && (!self.io_type.has_reads() || reads.fits(cell))
            && (!self.io_type.has_writes() || writes.fits(cell))
            && self.kind.fits_interval(self.interval, cell)
    }

    // Whether blocks can be verified as the job wants it: a pattern needs one.
    fn has_pattern(&self) -> bool
        ensures { result ≡ has_pattern self.now.kind self.now.pattern }
    {
        match self.kind {
            VerifyKind::Pattern => self.pattern.is_some(),
            _ => true,
        }
    }

    /// The shape of a job whose section begins at this line, or what is wrong with the job.
    #[tactic(auto, unfolding(crate::specs::Shapes::shape_of))]
    pub fn shape(&self, line: u32) -> Result<Shape, JobFault>
        ensures value { result ≡ shape_of self.now line }
        ensures shape { IfOk result (HasShape self.now) }
        ensures cut { IfOk result (λ shape. shape ≡ shape_in self.now) }
    {
        match self.size {
            Some(size) => self.cut(line, size),
            None => Err(JobFault::MissingSize(line)),
        }
    }

    // The shape of so many bytes.
    fn cut(&self, line: u32, size: u64) -> Result<Shape, JobFault>
        requires { self.now.size ≡ Some size }
        ensures value { result ≡ shape_with self.now line (Some size) }
        ensures shape { IfOk result (HasShape self.now) }
    {
        let reads = self.read_split.unwrap_or(Split::single(self.read_size));
        let writes = self.write_split.unwrap_or(Split::single(self.write_size));
        reads.facts();
        writes.facts();
        let cell = self.cell(&reads, &writes);
        if !self.fits(cell, &reads, &writes) {
            return Err(JobFault::BadBlock(line));
        }
        let cells = size / u64::from(cell);
        if cells == 0 {
            return Err(JobFault::BadBlock(line));
        }
        if !self.has_pattern() {
            return Err(JobFault::NoPattern(line));
        }
        Ok(Shape {
            size,
            cell,
            cells,
            reads,
            writes,
        })
    }
}
