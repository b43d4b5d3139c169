// The first walk over the sections: it finds all faults before anything is built.
ghost use Rattle.std.specs.Prelude.{◌≡◌, IfOk, Ok, option_copied};
ghost use Rattle.jr_job_options.specs.Options.{AreInRange};
ghost use Rattle.jr_options.specs.Surveys.{IsCapped, first_survey, with_section, survey_from, tally_in};

use crate::sections::{Reading, read_section};
use crate::tallies::Tally;
use jr_job_options::{JobFault, JobOptions};
use jr_text::Section;

// The options that count so far, and what is known of the jobs so far.
#[derive(Clone, Copy)]
pub struct Survey {
    globals: JobOptions,
    tally: Tally,
}

impl Survey {
    pub(crate) fn new() -> Survey
        ensures value { result ≡ first_survey }
        ensures range { AreInRange result.globals }
        ensures capped { IsCapped result.tally }
    {
        Survey {
            globals: JobOptions::new(),
            tally: Tally::new(),
        }
    }

    fn with_section(self, section: &Section, only: Option<&str>) -> Result<Survey, JobFault>
        requires range { AreInRange self.globals }
        requires capped { IsCapped self.tally }
        ensures value { result ≡ with_section (option_copied only.entry) self section.now }
        ensures range { IfOk result (λ survey. AreInRange survey.globals) }
        ensures capped { IfOk result (λ survey. IsCapped survey.tally) }
    {
        match read_section(&self.globals, section, only) {
            Ok(Reading::Globals(options)) => Ok(Survey {
                globals: options,
                tally: self.tally,
            }),
            Ok(Reading::Job(options)) => Ok(Survey {
                globals: self.globals,
                tally: self.tally.with_job(&options, section.line_number()),
            }),
            Ok(Reading::Skipped) => Ok(self),
            Err(fault) => Err(fault),
        }
    }
}

// Goes over all jobs once, without memory. A faulty line is the first fault; what is wrong with whole
// jobs comes after all lines.
pub(crate) fn tally_of(
    start: Survey,
    sections: &[Section],
    only: Option<&str>,
) -> Result<Tally, JobFault>
    requires range { AreInRange start.globals }
    requires capped { IsCapped start.tally }
    ensures value { result ≡ tally_in (survey_from (option_copied only.entry) (Ok start) sections.now) }
    ensures capped { IfOk result IsCapped }
{
    let mut survey = start;
    for section in sections {
        survey = match survey.with_section(section, only) {
            Ok(next) => next,
            Err(fault) => return Err(fault),
        };
    }
    Ok(survey.tally)
}
