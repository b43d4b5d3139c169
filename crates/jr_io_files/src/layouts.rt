ghost use Rattle.std.specs.Prelude.{◌≤◌, length, IfErr, IfSome, IsSome};
ghost use Rattle.std.specs.Io.KnownBytes.{Keeps};
ghost use Rattle.jr_io_files.specs.Engines.{NamesFile};

use crate::faults::FileFault;
use crate::uses::{is_checked, is_written};
use jr_plan::Plan;
use std::fs::{File, OpenOptions};
use std::io;
use std::io::{Seek, SeekFrom, Write};
use std::rt::Files;

/// Makes each file of the plan that is missing, and extends each that is shorter than its end by one zero byte.
///
/// A file's length is where a seek to its end stands, so that a device of the right size isn't written to. One that no clone
/// writes, and that is long enough, needs no right to write it. One that is only read and checked is left as it is.
/// At an error the files before the one that it names are laid out, and those behind it aren't touched.
pub fn lay_out<R: Files>(rt: &R, plan: &Plan) -> Result<(), FileFault>
    ensures { IfErr result (λ fault. NamesFile fault (length plan.now.files)) }
{
    for (index, spec) in plan.files().iter().enumerate() {
        if !is_written(plan, index)
            && (is_checked(plan, index) || has_length(rt, spec.name(), spec.high()))
        {
            continue;
        }
        if extend(rt, spec.name(), spec.high()).is_err() {
            return Err(FileFault::File(index));
        }
    }
    Ok(())
}

// Whether the file can be read, and has at least so many bytes.
fn has_length<R: Files>(rt: &R, name: &str, high: u64) -> bool {
    let Ok(mut file) = File::open(rt, name) else {
        return false;
    };
    file.seek(SeekFrom::End(0)).is_ok_and(|end| end >= high)
}

// Makes the file if it is missing, and lets it have at least so many bytes.
fn extend<R: Files>(rt: &R, name: &str, high: u64) -> io::Result<()> {
    let mut file = OpenOptions::new()
        .read(true)
        .write(true)
        .create(true)
        .open(rt, name)?;
    lengthen(&mut file, high)
}

// Writes a zero byte as the last of so many bytes, where the file is shorter. Any other isn't written to.
pub(crate) fn lengthen<F: Write + Seek>(file: &mut F, high: u64) -> io::Result<()>
    ensures { IsSome (F.stream_position file.old) → IfSome (F.stream_bytes file.old)
        (λ bytes. high ≤ length bytes → Keeps (F.stream_bytes file.old) (F.stream_bytes file.new)) }
{
    if file.seek(SeekFrom::End(0))? < high {
        file.seek(SeekFrom::Start(high - 1))?;
        file.write_all(&[0])?;
    }
    Ok(())
}
