use crate::interrupted::Interrupted;
use crate::status::status_with;
use jr_crew_threads::StopRequest;
use jr_desk::Desk;
use jr_report_faults::Faults;

/// How a run ended that has its report.
#[derive(Drop)]
pub struct Executed<'w> {
    /// 1 if a block came back wrong or an I/O failed, else 0.
    pub found: u8,
    /// What asked it to stop, if it did so before it was complete.
    pub asked: Option<StopRequest<'w>>,
    /// The I/Os and checks that failed or ended short: the first of them, and how many more.
    pub faults: Faults,
    /// The desk of the run, with its plan and all that happened.
    pub desk: Desk,
}

/// How a run ended that has its report, for who keeps that longer than the flag.
#[derive(Drop)]
pub struct RunEnd {
    /// 1 if a block came back wrong or an I/O failed, else 0.
    pub found: u8,
    /// It was asked to stop, and did so before it was complete.
    pub interrupted: Option<Interrupted>,
    /// The I/Os and checks that failed or ended short: the first of them, and how many more.
    pub faults: Faults,
    /// The desk of the run, with its plan and all that happened.
    pub desk: Desk,
}

impl<'w> Executed<'w> {
    ghost use Rattle.std.specs.Prelude.{◌≡◌};
    ghost use Rattle.jr_cli_ends.specs.Status.{is_interrupted, status_of_ended, was_interrupted};

    /// Whether it was asked to stop, and did so before it was complete.
    pub fn is_interrupted(&self) -> bool
        ensures { result ≡ is_interrupted self.now }
    {
        self.asked.is_some()
    }

    /// The exit status of the program, where all that the run wrote is stored, its outputs among it, or isn't.
    pub fn status(&self, is_stored: bool) -> u8
        ensures { result ≡ status_of_ended self.now is_stored }
    {
        status_with(self.found, self.is_interrupted(), is_stored)
    }

    /// What is known of it when the flag is gone.
    pub fn into_end(self) -> RunEnd
        ensures found { result.found ≡ self.entry.found }
        ensures interrupted { was_interrupted result ≡ is_interrupted self.entry }
        ensures faults { result.faults ≡ self.entry.faults }
        ensures desk { result.desk ≡ self.entry.desk }
    {
        let Executed {
            found,
            asked,
            faults,
            desk,
        } = self;
        let interrupted = match asked {
            Some(request) => Some(Interrupted::by(request)),
            None => None,
        };
        RunEnd {
            found,
            interrupted,
            faults,
            desk,
        }
    }
}

impl RunEnd {
    ghost use Rattle.std.specs.Prelude.{◌≡◌};
    ghost use Rattle.jr_cli_ends.specs.Status.{status_of_run_end, was_interrupted};

    /// Whether it was asked to stop, and did so before it was complete.
    pub fn is_interrupted(&self) -> bool
        ensures { result ≡ was_interrupted self.now }
    {
        self.interrupted.is_some()
    }

    /// The exit status of the program, where all that the run wrote is stored, its outputs among it, or isn't.
    pub fn status(&self, is_stored: bool) -> u8
        ensures { result ≡ status_of_run_end self.now is_stored }
    {
        status_with(self.found, self.is_interrupted(), is_stored)
    }
}
