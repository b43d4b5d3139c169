// The names of the files of a job's clones.
ghost use Rattle.std.specs.Prelude.{◌≡◌, IfOk, None, Some, codes, option_copied, string_bytes, unwrap_or};
ghost use Rattle.jr_job_options.specs.Lookups.{value_from};
ghost use Rattle.jr_options.specs.PlanOf.{default_name, path_in};

use jr_text::Line;
use std::alloc::{AllocError, Global};

// What the lines so far say of a job's files: the last value of each key.
#[derive(Clone, Copy)]
pub struct Names<'a> {
    file_name: Option<&'a str>,
    directory: Option<&'a str>,
}

impl<'a> Names<'a> {
    pub(crate) fn new() -> Names<'a>
        ensures file_name { option_copied result.file_name ≡ None }
        ensures directory { option_copied result.directory ≡ None }
    {
        Names {
            file_name: None,
            directory: None,
        }
    }

    // The names after more lines, which win.
    pub(crate) fn with_lines(&self, lines: &'a [Line]) -> Names<'a>
        ensures file_name { option_copied result.file_name ≡ value_from (option_copied self.now.file_name) (codes "filename") lines.now }
        ensures directory { option_copied result.directory ≡ value_from (option_copied self.now.directory) (codes "directory") lines.now }
    {
        Names {
            file_name: last_value(self.file_name, lines, "filename"),
            directory: last_value(self.directory, lines, "directory"),
        }
    }

    // The path of the file of a job's clone; `index` is the clone's place within its job.
    pub(crate) fn file(&self, alloc: Global, job: &str, index: u32) -> Result<String, AllocError>
        ensures { IfOk result (λ file. string_bytes file
            ≡ path_in (option_copied self.now.directory) (unwrap_or (option_copied self.now.file_name) (default_name job.now index))) }
    {
        let name = own_name(alloc, self.file_name, job, index)?;
        match self.directory {
            Some(directory) => path_in(alloc, directory, name.as_str()),
            None => Ok(name),
        }
    }
}

// The value of the last line of this key among some lines, else the one found before.
fn last_value<'a>(found: Option<&'a str>, lines: &'a [Line], key: &str) -> Option<&'a str>
    ensures { option_copied result ≡ value_from (option_copied found.entry) key.now lines.now }
{
    let mut found = found;
    for line in lines {
        if line.key() == key {
            found = line.value();
        }
    }
    found
}

// The path of a name in a directory.
fn path_in(alloc: Global, directory: &str, name: &str) -> Result<String, AllocError>
    ensures { IfOk result (λ path. string_bytes path ≡ path_in (Some directory.now) name.now) }
{
    let mut path = String::from_str(alloc, directory)?;
    if !directory.ends_with('/') {
        path.push('/')?;
    }
    path.push_str(name)?;
    Ok(path)
}

// The name that a job gives its files, or else one of the clone's own.
fn own_name(alloc: Global, given: Option<&str>, job: &str, index: u32) -> Result<String, AllocError>
    ensures { IfOk result (λ name. string_bytes name ≡ unwrap_or (option_copied given.entry) (default_name job.now index)) }
{
    match given {
        Some(name) => String::from_str(alloc, name),
        None => default_name(alloc, job, index),
    }
}

// The name of a clone's own file.
#[tactic(auto, unfolding(crate::specs::PlanOf::default_name))]
fn default_name(alloc: Global, job: &str, index: u32) -> Result<String, AllocError>
    ensures { IfOk result (λ name. string_bytes name ≡ default_name job.now index) }
{
    let mut name = String::new(alloc);
    write!(name, "{job}.{index}.0")?;
    Ok(name)
}
