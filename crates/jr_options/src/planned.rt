ghost use Rattle.std.specs.Prelude.{◌≡◌, ◌≤◌};
ghost use Rattle.jr_options.specs.Planned.{workload_of};

use jr_job_options::{JobOptions, Shape};
use jr_model::{MOST_CELLS, Method};
use jr_plan::Workload;

/// A job that has been found sound, with its place in the order of phases.
#[derive(Clone, Copy)]
pub struct PlannedJob {
    pub(crate) phase: u32,
    pub(crate) options: JobOptions,
    pub(crate) shape: Shape,
}

impl PlannedJob {
    // What each of its clones does.
    pub(crate) fn workload(&self) -> Workload
        requires { self.now.shape.cells ≤ MOST_CELLS }
        ensures { result ≡ workload_of self.now }
    {
        let options = &self.options;
        let shape = &self.shape;
        Workload {
            phase: self.phase,
            cell: shape.cell,
            cells: shape.cells as u32,
            io_type: options.io_type,
            read_percent: options.read_percent,
            reads: shape.reads,
            writes: shape.writes,
            has_map: options.has_map,
            seed: options.seed,
            depth: options.depth,
            passes: options.passes,
            method: Method {
                kind: options.kind,
                pattern: options.pattern,
                interval: options.interval,
            },
            checks_writes: options.checks_writes,
            backlog: options.backlog,
            is_fatal: options.is_fatal,
            declines: options.declines,
            direct: options.direct,
        }
    }
}
