use jr_diagnosis::Diagnosed;

/// How a run ended.
#[derive(Clone, Copy)]
pub struct RunStatus<'a> {
    /// The version of the program that ran.
    pub version: &'a str,
    /// The program logic in which it is proved.
    pub logic: &'a str,
    /// Its exit status.
    pub status: u8,
    /// It was stopped before it was complete.
    pub is_interrupted: bool,
    /// How many reads of files that are checked the system's cache may have answered, where it was over files.
    pub cached: Option<u64>,
    /// Where a job wants a file's I/O past that cache: whether that was had for each such file.
    pub direct: Option<bool>,
    /// All that it wrote is stored.
    pub is_stored: bool,
}

/// What is known of a file of a run, and of the device that it is, or is on.
#[derive(Drop)]
pub struct KnownFile {
    /// Its name in the plan.
    pub name: String,
    pub model: Option<String>,
    pub serial: Option<String>,
    /// How many bytes the device has.
    pub size: Option<u64>,
}

/// When, where and by what text a run was.
#[derive(Drop)]
pub struct RunSetting {
    /// When it began and ended: in UTC, as RFC 3339 writes it.
    pub began: Option<String>,
    pub ended: Option<String>,
    /// How long it took.
    pub milliseconds: Option<u64>,
    pub host: Option<String>,
    /// The text of its job file.
    pub job: Option<String>,
}

/// What is known of a run beside its history.
#[derive(Clone, Copy)]
pub struct RunNotes<'a> {
    /// Why the system refused each of its first faults, where that is known.
    pub reasons: &'a [Option<String>],
    /// What stands in its first bad blocks.
    pub found: &'a [Diagnosed],
    pub setting: &'a RunSetting,
    pub files: &'a [KnownFile],
}
