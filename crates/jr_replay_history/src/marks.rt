ghost use Rattle.std.specs.Prelude.{List, []};
ghost use Rattle.jr_model.specs.declared.events.Started.{Started};

use crate::parts::Parts;
use jr_model::{Outcome, Piece, WriteId};
use std::alloc::Global;
use std::collections::{HashMap, HashSet};

/// The end of a write.
#[derive(Clone, Copy)]
pub struct WriteEnd {
    /// Its number among all that was started.
    pub io: usize,
    pub write: WriteId,
    pub piece: Piece,
    /// Whether all its bytes were moved.
    pub whole: bool,
}

// What events say of I/Os, writes and clones, to be looked up.
#[derive(Drop)]
pub struct Marks {
    // How each I/O ended, by its number.
    pub outcomes: HashMap<usize, Outcome>,
    // The I/Os that have a verdict, by their numbers.
    pub judged: HashSet<usize>,
    // How many draws of a clone's pass were issued, by clone and pass.
    pub issued: HashMap<(u32, u32), usize>,
    // The writes that were checked or skipped.
    pub taken_up: HashSet<WriteId>,
    // The writes that were skipped, or whose check ended.
    pub settled: HashSet<WriteId>,
    // The clones with a fault.
    pub faulty: HashSet<u32>,
    // The clones with a bad verdict.
    pub condemned: HashSet<u32>,
    // The ends of writes, the oldest first.
    pub written: Vec<WriteEnd>,
    // The ends of writes by the parts of files that they lie over.
    pub parts: Parts,
}

impl Marks {
    ghost use Rattle.jr_replay_history.specs.Marks.{IsMarked};

    // What no events say.
    pub fn new(alloc: Global) -> Marks
        ensures { (ios : List Started) → IsMarked ios [] result }
    {
        Marks {
            outcomes: HashMap::new(alloc),
            judged: HashSet::new(alloc),
            issued: HashMap::new(alloc),
            taken_up: HashSet::new(alloc),
            settled: HashSet::new(alloc),
            faulty: HashSet::new(alloc),
            condemned: HashSet::new(alloc),
            written: Vec::new(alloc),
            parts: Parts::new(alloc),
        }
    }
}
