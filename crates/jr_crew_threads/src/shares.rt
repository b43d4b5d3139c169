use jr_model::{Memory, Ticket};
use jr_plan::Plan;
use std::alloc::Global;

/// No worker takes more I/Os at once than these.
pub const MOST_IOS: u64 = 16;

/// A worker that took so many bytes takes no more at once: then the lock costs little beside the I/O.
pub const MOST_BYTES: u64 = 256 << 10;

/// How many I/Os a worker takes at once: what the depths give to each worker.
#[derive(Drop)]
pub struct Shares {
    // How many workers the run has.
    workers: u64,
    // How deep each clone is, and the place of its phase.
    by_clone: Vec<Deep>,
    // The depths of the clones of each phase together.
    by_phase: Vec<u64>,
    // The depths of all clones together.
    depths: u64,
}

// How deep a clone is, and the place of its phase.
#[derive(Clone, Copy)]
struct Deep {
    depth: u64,
    phase: usize,
}

impl Shares {
    /// Those of this plan's clones, for so many workers. Only memory can be wanting.
    pub fn new(alloc: Global, plan: &Plan, workers: usize) -> Result<Shares, Memory> {
        let mut by_clone = Vec::new(alloc);
        let mut by_phase = Vec::new(alloc);
        let mut depths: u64 = 0;
        let mut phase = 0;
        let mut of_phase: u64 = 0;
        for clone in 0..plan.clones() {
            let job = plan.clone_at(clone);
            let depth = u64::from(job.depth());
            if job.phase() != phase {
                by_phase.push(of_phase)?;
                phase = job.phase();
                of_phase = 0;
            }
            by_clone.push(Deep {
                depth,
                phase: by_phase.len(),
            })?;
            of_phase = of_phase.saturating_add(depth);
            depths = depths.saturating_add(depth);
        }
        by_phase.push(of_phase)?;
        Ok(Shares {
            workers: workers as u64,
            by_clone,
            by_phase,
            depths,
        })
    }

    /// The share of a worker that took this ticket, if so many workers rest: what all clones of its phase have for each of the others.
    /// If others wait for something to do it is what its clone alone has, so that they get the rest.
    pub fn share_for(&self, ticket: &Ticket, others_wait: bool, resting: u64) -> u64 {
        let Some(clone) = self.by_clone.get(ticket.write.clone as usize) else {
            return 1;
        };
        match self.by_phase.get(clone.phase) {
            Some(depths) if !others_wait => self.for_each(*depths, resting),
            _ => self.for_each(clone.depth, resting),
        }
    }

    fn for_each(&self, depth: u64, resting: u64) -> u64 {
        match depth.checked_div(self.workers.saturating_sub(resting)) {
            Some(share) => share.max(1),
            None => depth,
        }
    }

    /// No more I/Os than these are in flight at any time.
    pub fn depths(&self) -> u64 {
        self.depths
    }
}
