/// What the system said of the files of a run.
#[derive(Clone, Copy)]
pub struct Storage {
    /// How many reads of files that are checked its cache may have answered, where the run was over files.
    pub cached: Option<u64>,
    /// Where a job wants a file's I/O past that cache: whether that was had for each such file.
    pub direct: Option<bool>,
    /// It has stored all that the run wrote.
    pub is_stored: bool,
}
