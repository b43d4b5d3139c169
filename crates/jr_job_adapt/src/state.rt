// What the lines so far mean for a job.

use crate::following::is_global;
use crate::turns::{Turn, Turned, turn_line};
use jr_job_keys::Way;
use jr_text::{Line, Section};
use std::alloc::{AllocError, Global};

// A refused line that counts for jobs, by its section and its place there.
#[derive(Clone, Copy)]
pub struct Concern {
    pub(crate) section: usize,
    pub(crate) line: usize,
    pub(crate) turn: Turn,
}

// What counts so far: the refused lines, each the last one of its key, and the names that files have.
#[derive(Drop)]
pub struct State {
    pub(crate) concerns: Vec<Concern>,
    pub(crate) file_name: Option<String>,
    pub(crate) directory: Option<String>,
}

impl State {
    pub(crate) fn new(alloc: Global) -> State {
        State {
            concerns: Vec::new(alloc),
            file_name: None,
            directory: None,
        }
    }

    // A copy for a job below, with the lines of its section, by its number.
    pub(crate) fn with(
        &self,
        alloc: Global,
        sections: &[Section],
        number: usize,
    ) -> Result<State, AllocError> {
        let mut state = self.copied(alloc)?;
        state.add(alloc, sections, number)?;
        Ok(state)
    }

    fn copied(&self, alloc: Global) -> Result<State, AllocError> {
        Ok(State {
            concerns: Vec::from_slice(alloc, self.concerns.as_slice())?,
            file_name: copied(alloc, &self.file_name)?,
            directory: copied(alloc, &self.directory)?,
        })
    }

    // Adds the lines of a section, by its number.
    pub(crate) fn add(
        &mut self,
        alloc: Global,
        sections: &[Section],
        number: usize,
    ) -> Result<(), AllocError> {
        let Some(section) = sections.get(number) else {
            return Ok(());
        };
        for (i, line) in section.lines().iter().enumerate() {
            self.without(sections, line.key());
            match turn_line(alloc, line)? {
                Some(turned) => self.add_turned(number, i, &turned)?,
                None => self.add_taken(alloc, line)?,
            }
        }
        Ok(())
    }

    // Adds the lines of a section if it is a global one.
    pub(crate) fn add_global(
        &mut self,
        alloc: Global,
        sections: &[Section],
        number: usize,
    ) -> Result<(), AllocError> {
        match sections.get(number) {
            Some(section) if is_global(section) => self.add(alloc, sections, number),
            _ => Ok(()),
        }
    }

    // Nothing counts any more of a key that comes again.
    fn without(&mut self, sections: &[Section], key: &str) {
        self.concerns.retain(|concern| match line_of(sections, *concern) {
            Some(line) => line.key() != key,
            None => false,
        });
    }

    fn add_turned(
        &mut self,
        section: usize,
        line: usize,
        turned: &Turned,
    ) -> Result<(), AllocError> {
        let turn = turned.turn;
        if !matches!(turn, Turn::Done) {
            self.concerns.push(Concern {
                section,
                line,
                turn,
            })?;
        }
        Ok(())
    }

    // Keeps the names of files that a line says.
    fn add_taken(&mut self, alloc: Global, line: &Line) -> Result<(), AllocError> {
        let Some(value) = line.value() else {
            return Ok(());
        };
        if line.key() == "filename" {
            self.file_name = Some(String::from_str(alloc, value)?);
        } else if line.key() == "directory" {
            self.directory = Some(String::from_str(alloc, value)?);
        }
        Ok(())
    }

    // The first line that leaves a job out, and why.
    pub(crate) fn yours<'a>(&self, sections: &'a [Section]) -> Option<(&'a Line, &'static str)> {
        for concern in self.concerns.iter() {
            if let (Turn::Yours(lost), Some(line)) = (concern.turn, line_of(sections, *concern)) {
                return Some((line, lost));
            }
        }
        None
    }

    // The path of the job's file, where it is named.
    pub(crate) fn path(&self, alloc: Global) -> Result<Option<String>, AllocError> {
        let Some(name) = &self.file_name else {
            return Ok(None);
        };
        match &self.directory {
            Some(directory) => Ok(Some(format!(in alloc; "{directory}/{name}")?)),
            None => Ok(Some(String::from_str(alloc, name.as_str())?)),
        }
    }
}

fn copied(alloc: Global, text: &Option<String>) -> Result<Option<String>, AllocError> {
    match text {
        Some(text) => Ok(Some(String::from_str(alloc, text.as_str())?)),
        None => Ok(None),
    }
}

// The line that a concern is about.
pub(crate) fn line_of(sections: &[Section], concern: Concern) -> Option<&Line> {
    sections.get(concern.section)?.lines().get(concern.line)
}

// What is to be done in the job, where a concern is about that.
pub(crate) fn way_of(concern: Concern) -> Option<Way> {
    match concern.turn {
        Turn::InJob(way) => Some(way),
        Turn::Done | Turn::Yours(_) => None,
    }
}
