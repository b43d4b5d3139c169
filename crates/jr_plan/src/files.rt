ghost use Rattle.std.specs.Prelude.{◌≡◌, ◌≤◌, ◌<◌, ◌++◌, ◌∷◌, [], length, vec_len, string_bytes, IfOk, OnErr};
ghost use Rattle.jr_plan.specs.Files.{file_place, with_file, widened};

use std::alloc::{AllocError, Global};
use std::marker::Model;

/// A file of a run.
#[derive(Drop)]
pub struct FileSpec {
    name: String,
    low: u64,
    high: u64,
}

impl Model for FileSpec {
    ghost use Rattle.std.specs.Prelude.{string_bytes};
    ghost use Rattle.jr_model.specs.Plan.{FileSpec as FileRecord};

    ghost Value = { FileRecord };

    ghost view = { λ a. record { name = string_bytes a.name; low = a.low; high = a.high } };
}

impl FileSpec {
    /// Its path, as the job file gives it or as the default name.
    pub fn name(&self) -> &str
        ensures { result.now ≡ self.now.name }
    {
        self.name.as_str()
    }

    /// The least start of a clone in it, in bytes.
    pub fn low(&self) -> u64
        ensures { result ≡ self.now.low }
    {
        self.low
    }

    /// The furthest end of a clone's cells in it, in bytes.
    pub fn high(&self) -> u64
        ensures { result ≡ self.now.high }
    {
        self.high
    }

    fn widen(&mut self, low: u64, high: u64)
        ensures { self.new ≡ widened self.old low high }
    {
        self.low = self.low.min(low);
        self.high = self.high.max(high);
    }

    fn copied(&self, alloc: Global) -> Result<FileSpec, AllocError>
        ensures { IfOk result (λ file. file ≡ self.now) }
    {
        Ok(FileSpec {
            name: String::from_str(alloc, self.name.as_str())?,
            low: self.low,
            high: self.high,
        })
    }
}

// These files once more.
pub(crate) fn copied_files(alloc: Global, files: &[FileSpec]) -> Result<Vec<FileSpec>, AllocError>
    ensures { IfOk result (λ copies. copies.items ≡ files.now) }
{
    let mut copies = Vec::new(alloc);
    for file in files {
        copies.push(file.copied(alloc)?)?;
    }
    Ok(copies)
}

// The place of the file of this name, or of a new one behind all.
fn place_of(files: &[FileSpec], name: &str) -> usize
    ensures { result ≡ file_place files.now name.now }
{
    for (i, file) in files.iter().enumerate() {
        if file.name() == name {
            return i;
        }
    }
    files.len()
}

// Lets a clone use the file of this name from `low` up to `high`, and answers its place.
pub(crate) fn use_file(
    files: &mut Vec<FileSpec>,
    name: String,
    low: u64,
    high: u64,
) -> Result<usize, AllocError>
    ensures place { IfOk result (λ place. place ≡ file_place files.old.items (string_bytes name)) }
    ensures files { IfOk result (λ _. files.new.items ≡ with_file files.old.items (string_bytes name) low high) }
    ensures err { OnErr result (files.new.items ≡ files.old.items) }
{
    let place = place_of(files, name.as_str());
    if place < files.len() {
        files[place].widen(low, high);
    } else {
        files.push(FileSpec { name, low, high })?;
    }
    Ok(place)
}
