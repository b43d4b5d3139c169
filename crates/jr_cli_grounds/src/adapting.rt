// A job file as it has to be written here, printed in place of a run.
use jr_cli_words::{Choice, CliFault, to_output, write_out};
use jr_job_adapt::{AdaptFault, Lengths, adapt};
use jr_system::{Machine, Outlet, Stop};
use jr_text::number;
use std::fs;
use std::fs::{File, Files};
use std::io::{Seek, SeekFrom};
use std::os::unix::fs::FileTypeExt;

// The plain files and block devices that the system has.
#[derive(Drop)]
struct Present<'a, R> {
    rt: &'a R,
}

impl<'a, R: Files<File = File>> Lengths for Present<'a, R> {
    fn length(&self, path: &str) -> Option<u64> {
        let kind = fs::metadata(self.rt, path).ok()?.file_type();
        if !kind.is_file() && !kind.is_block_device() {
            return None;
        }
        let mut file = fs::open(self.rt, path).ok()?;
        file.seek(SeekFrom::End(0)).ok()
    }
}

/// The size of jobs that have none, where the words say one; they may only where a job file is to be adapted.
pub fn job_size(choice: &Choice<'_>) -> Result<Option<u64>, CliFault> {
    let Some(text) = choice.size else {
        return Ok(None);
    };
    match number(text) {
        Ok(size) if choice.adapt => Ok(Some(size)),
        _ => Err(CliFault::JobSize),
    }
}

/// Prints this job text adapted. The status is 1 where a person has to decide something, and what is wrong with it as a whole is said.
pub fn print_adapted<R: Outlet + Machine>(
    rt: &R,
    text: &[u8],
    size: Option<u64>,
) -> Result<u8, Stop> {
    let adapted = match adapt(rt.alloc(), text, size, &Present { rt }) {
        Ok(adapted) => adapted,
        Err(fault) => return Err(Stop::from(fault_of(fault))),
    };
    let mut out = to_output(rt)?;
    write_out(adapted.text().as_bytes(), &mut out)?;
    if let Some(fault) = adapted.rest() {
        let _ = eprintln!(rt; "fiorun: {fault}");
    }
    Ok(u8::from(adapted.is_open()))
}

fn fault_of(fault: AdaptFault) -> CliFault {
    match fault {
        AdaptFault::Text(fault) => CliFault::Text(fault),
        AdaptFault::Memory => CliFault::Memory,
        _ => CliFault::Unadapted,
    }
}
