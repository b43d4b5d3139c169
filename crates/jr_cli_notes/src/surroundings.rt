// What is known of a run beside its history.
use crate::beginnings::Beginning;
use crate::devices::known_files;
use jr_diagnosis::Diagnosed;
use jr_plan::Plan;
use jr_report_json::{KnownFile, RunNotes, RunSetting};
use std::alloc::{AllocError, AllocGlobal};
use std::fs::{File, Files};
use std::time::Clock;

/// When, where, over which devices and by what text a run was.
#[derive(Drop)]
pub struct Surroundings {
    pub setting: RunSetting,
    pub files: Vec<KnownFile>,
}

impl Surroundings {
    /// Those of a run of this plan, made of this job text, that began then and ends now.
    pub fn of<R: Clock + Files<File = File> + AllocGlobal>(
        rt: &R,
        plan: &Plan,
        begun: &Beginning,
        job: &[u8],
    ) -> Result<Surroundings, AllocError> {
        Ok(Surroundings {
            setting: begun.setting(rt, job),
            files: known_files(rt, plan)?,
        })
    }

    /// With why the system refused the first faults, and what stands in the first bad blocks.
    pub fn notes<'a>(
        &'a self,
        reasons: &'a [Option<String>],
        found: &'a [Diagnosed],
    ) -> RunNotes<'a> {
        RunNotes {
            reasons,
            found,
            setting: &self.setting,
            files: self.files.as_slice(),
        }
    }
}
