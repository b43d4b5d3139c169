// The text of an adapted job file.

use crate::jobs::Draft;
use crate::turns::{turn_line, word};
use jr_text::{Line, Section};
use std::alloc::{AllocError, Global};

// The text so far, and the section and the line in it that come next.
#[derive(Drop)]
struct Writer {
    text: String,
    // How many sections were begun.
    begun: usize,
    // The place of the next line in the last of them.
    place: usize,
}

// A job file's text with what becomes of its sections, below a first line.
pub(crate) fn written(
    alloc: Global,
    text: &str,
    sections: &[Section],
    drafts: &[Draft],
    top: &str,
) -> Result<String, AllocError> {
    let mut writer = Writer {
        text: String::from_str(alloc, top)?,
        begun: 0,
        place: 0,
    };
    for (i, line) in text.split('\n').enumerate() {
        writer.write_line(alloc, sections, drafts, i.saturating_add(1), line)?;
    }
    Ok(writer.text)
}

impl Writer {
    // Writes what becomes of the line of this number.
    fn write_line(
        &mut self,
        alloc: Global,
        sections: &[Section],
        drafts: &[Draft],
        number: usize,
        raw: &str,
    ) -> Result<(), AllocError> {
        if let (Some(section), Some(draft)) = (sections.get(self.begun), drafts.get(self.begun))
            && section.line_number() as usize == number
        {
            self.begun = self.begun.saturating_add(1);
            self.place = 0;
            return self.write_heading(section, draft, raw);
        }
        let own = self.begun.saturating_sub(1);
        if let (Some(section), Some(draft)) = (sections.get(own), drafts.get(own))
            && let Some(line) = section.lines().get(self.place)
            && line.number() as usize == number
        {
            self.place = self.place.saturating_add(1);
            self.write_option(alloc, line, draft, raw)?;
            if self.place == section.lines().len() {
                self.write_extras(draft)?;
            }
            return Ok(());
        }
        self.push("", raw)
    }

    // Adds a line.
    fn push(&mut self, front: &str, line: &str) -> Result<(), AllocError> {
        self.text.push('\n')?;
        self.text.push_str(front)?;
        self.text.push_str(line)
    }

    fn write_heading(
        &mut self,
        section: &Section,
        draft: &Draft,
        raw: &str,
    ) -> Result<(), AllocError> {
        match &draft.out {
            Some(why) => {
                self.push("; left out, yours to decide: ", why.as_str())?;
                self.push("; ", raw)
            }
            None => {
                self.push("", raw)?;
                if section.lines().is_empty() {
                    self.write_extras(draft)?;
                }
                Ok(())
            }
        }
    }

    fn write_option(
        &mut self,
        alloc: Global,
        line: &Line,
        draft: &Draft,
        raw: &str,
    ) -> Result<(), AllocError> {
        let is_out = draft.out.is_some();
        let Some(turned) = turn_line(alloc, line)? else {
            return self.push(if is_out { "; " } else { "" }, raw);
        };
        self.push("; was: ", raw.split('\r').next().unwrap_or(""))?;
        self.text.push_str(" -- ")?;
        self.text.push_str(word(alloc, line, &turned)?.as_str())?;
        if is_out {
            return Ok(());
        }
        self.write_lines(turned.lines.as_slice())
    }

    // Writes lines that were made of one.
    fn write_lines(&mut self, lines: &[Line]) -> Result<(), AllocError> {
        for line in lines {
            self.push("", line.key())?;
            if let Some(value) = line.value() {
                self.text.push('=')?;
                self.text.push_str(value)?;
            }
        }
        Ok(())
    }

    fn write_extras(&mut self, draft: &Draft) -> Result<(), AllocError> {
        if draft.out.is_none() {
            for line in draft.extras.iter() {
                self.push("", line.as_str())?;
            }
        }
        Ok(())
    }
}
