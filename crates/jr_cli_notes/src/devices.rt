// What the system says of the devices of a run's files.
use jr_io_devices::{DeviceNumbers, FileNumbers};
use jr_plan::{EngineKind, Plan};
use jr_report_json::KnownFile;
use std::alloc::{AllocError, AllocGlobal};
use std::fs;
use std::fs::{File, Files};

// The system counts the size of a device in units of so many bytes.
const SECTOR: u64 = 512;

/// What is known of the files of the plan, where its engine has files. Of their devices that is what `/sys` says, where it does.
pub fn known_files<R: Files<File = File> + AllocGlobal>(
    rt: &R,
    plan: &Plan,
) -> Result<Vec<KnownFile>, AllocError> {
    let mut files = Vec::new(rt.alloc());
    if plan.engine() != EngineKind::File {
        return Ok(files);
    }
    for file in plan.files() {
        files.push(known_file(rt, file.name())?)?;
    }
    Ok(files)
}

fn known_file<R: Files<File = File> + AllocGlobal>(
    rt: &R,
    name: &str,
) -> Result<KnownFile, AllocError> {
    let alloc = rt.alloc();
    let name_of = String::from_str(alloc, name)?;
    let Some(folder) = folder_of(rt, name) else {
        return Ok(KnownFile {
            name: name_of,
            model: None,
            serial: None,
            size: None,
        });
    };
    let folder = folder.as_str();
    Ok(KnownFile {
        name: name_of,
        model: said(rt, folder, "device/model"),
        serial: said(rt, folder, "device/serial").or_else(|| said(rt, folder, "serial")),
        size: size_of(rt, folder),
    })
}

// The folder of the disk that the file is, or lies on.
fn folder_of<R: Files<File = File> + AllocGlobal>(rt: &R, name: &str) -> Option<String> {
    let numbers = FileNumbers::of(&fs::metadata(rt, name).ok()?);
    let device = if numbers.is_block_device {
        numbers.device
    } else {
        numbers.file_system
    };
    let device = DeviceNumbers::of(device).text(rt.alloc()).ok()?;
    let own = format!(in rt.alloc(); "/sys/dev/block/{device}").ok()?;
    // A partition's folder lies in that of its disk.
    match said(rt, own.as_str(), "partition") {
        Some(_) => format!(in rt.alloc(); "/sys/dev/block/{device}/..").ok(),
        None => Some(own),
    }
}

// What a file of the folder says, without the space about it; nothing where it says nothing.
fn said<R: Files<File = File> + AllocGlobal>(rt: &R, folder: &str, file: &str) -> Option<String> {
    let path = format!(in rt.alloc(); "{folder}/{file}").ok()?;
    let text = fs::read_to_string(rt, path.as_str()).ok()?;
    let text = text.trim();
    if text.is_empty() {
        return None;
    }
    String::from_str(rt.alloc(), text).ok()
}

fn size_of<R: Files<File = File> + AllocGlobal>(rt: &R, folder: &str) -> Option<u64> {
    let sectors = said(rt, folder, "size")?.as_str().parse::<u64>().ok()?;
    sectors.checked_mul(SECTOR)
}
