use jr_model::Part;

// The draw that a line names.
#[derive(Clone, Copy)]
pub struct Name {
    pub clone: u64,
    pub pass: u64,
    pub number: u64,
}

// What is started: by which worker, under which number, for which draw.
#[derive(Clone, Copy)]
pub struct Start {
    pub worker: u64,
    pub io: u64,
    pub write: Name,
}

// How an I/O ended.
#[derive(Clone, Copy)]
pub enum Ending {
    Whole,
    Failed,
    Short(u64),
}

// What is said of a check.
#[derive(Clone, Copy)]
pub enum Finding {
    Good,
    Header,
    Digest,
    DataArea,
    Byte(u64),
    Chunk(u64, Part),
    Void,
}

// What a line of a trace says. Its numbers may be too large for an event.
#[derive(Clone, Copy)]
pub enum Entry {
    Issue(Start),
    Probe(Start),
    Skip {
        worker: u64,
        write: Name,
    },
    End {
        worker: u64,
        io: u64,
        ending: Ending,
    },
    Verdict {
        by: u64,
        io: u64,
        finding: Finding,
    },
}
