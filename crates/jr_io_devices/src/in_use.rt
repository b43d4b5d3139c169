// By what a block device is in use. The kernel's tables are looked at by numbers: a name may be any path.
use crate::devices::DeviceNumbers;
use crate::identities::FileNumbers;
use crate::layers::{Backing, Layers};
use crate::loops::Loops;
use crate::places::path_of;
use crate::tables::{
    field_of, is_anonymous, is_newline, is_nul, mount_of, names_of, place_of, source_of, text_of,
};
use crate::uses::Use;
use std::alloc::{AllocError, Global};
use std::os::unix::fs::{FileTypeExt, MetadataExt};
use std::rt::Files;
use std::{fs, io};

/// By what this device, a partition of it, or the disk that it is a partition of is in use, as far as this process sees: nothing is
/// where the kernel's tables aren't there. An error is want of memory, or says that a table wasn't read to its end.
pub fn use_of<R: Files>(rt: &R, alloc: Global, device: DeviceNumbers) -> io::Result<Option<Use>> {
    let family = family_of(rt, alloc, device)?;
    let mounts = text_of(rt, alloc, "/proc/self", "mountinfo")?;
    let swaps = swaps_of(rt, alloc)?;
    use_of_any(
        rt,
        alloc,
        family.as_slice(),
        mounts.as_slice(),
        swaps.as_slice(),
    )
}

/// By what this file or device is in use that nobody's claim of it shows: a loop device over some of its bytes, a device that stands on
/// it, or what uses the device that it stands on as a loop device. Errors are those of `use_of`.
pub fn use_beside<R: Files>(
    rt: &R,
    alloc: Global,
    numbers: FileNumbers,
    loops: &Loops,
) -> io::Result<Option<Use>> {
    let layers = Layers::of(rt, alloc, numbers)?;
    match loop_use(rt, alloc, numbers, &layers, loops) {
        Ok(None) => use_below(rt, alloc, numbers, layers.backing()),
        found => found,
    }
}

// The use by a loop device over this file or device: by the first that is in use itself, or else by the first.
fn loop_use<R: Files>(
    rt: &R,
    alloc: Global,
    numbers: FileNumbers,
    layers: &Layers,
    loops: &Loops,
) -> io::Result<Option<Use>> {
    let mut first = None;
    for over in loops.all() {
        if over.is_over(layers) {
            let name = over.name.as_str();
            if let Some(by) = use_of(rt, alloc, over.numbers)? {
                let text = with_user(alloc, name, by)?;
                return use_by_loop(alloc, numbers, text.as_str());
            }
            first = first.or(Some(name));
        }
    }
    match first {
        Some(name) => use_by_loop(alloc, numbers, name),
        None => Ok(None),
    }
}

// The name of a device, and what uses that.
fn with_user(alloc: Global, name: &str, by: Use) -> Result<String, AllocError> {
    format!(in alloc; "{name}, {by}")
}

// The use by the loop device of this name, behind which may stand what uses that.
fn use_by_loop(alloc: Global, numbers: FileNumbers, name: &str) -> io::Result<Option<Use>> {
    if numbers.is_block_device {
        Ok(Some(Use::PartOf(String::from_str(alloc, name)?)))
    } else {
        Ok(Some(Use::Under(format!(in alloc; "/dev/{name}")?)))
    }
}

// The use of a device that this one stands on as a loop device, or else by a device that stands on this one.
fn use_below<R: Files>(
    rt: &R,
    alloc: Global,
    numbers: FileNumbers,
    backing: &[Backing],
) -> io::Result<Option<Use>> {
    for below in backing {
        if let Some(by) = use_of(rt, alloc, below.numbers)? {
            return Ok(Some(Use::Over(with_user(alloc, below.name.as_str(), by)?)));
        }
    }
    if numbers.is_block_device {
        holder_of_any(rt, alloc, DeviceNumbers::of(numbers.device))
    } else {
        Ok(None)
    }
}

// The first device that stands on this one, a partition of it, or the disk that it is a partition of.
fn holder_of_any<R: Files>(
    rt: &R,
    alloc: Global,
    device: DeviceNumbers,
) -> io::Result<Option<Use>> {
    let family = family_of(rt, alloc, device)?;
    for member in family.as_slice() {
        match holder_of(rt, alloc, *member) {
            Ok(None) => {}
            found => return found,
        }
    }
    Ok(None)
}

// By what one of these devices is in use.
fn use_of_any<R: Files>(
    rt: &R,
    alloc: Global,
    family: &[DeviceNumbers],
    mounts: &[u8],
    swaps: &[DeviceNumbers],
) -> io::Result<Option<Use>> {
    for member in family {
        match use_of_one(rt, alloc, *member, mounts, swaps) {
            Ok(None) => {}
            found => return found,
        }
    }
    source_use(rt, alloc, mounts, family)
}

// By the first mount of a file system without a device of its own that names one of these devices as its source.
fn source_use<R: Files>(
    rt: &R,
    alloc: Global,
    mounts: &[u8],
    family: &[DeviceNumbers],
) -> io::Result<Option<Use>> {
    for line in mounts.split(is_newline) {
        if is_anonymous(line) && is_from(rt, alloc, line, family)? {
            return mounted(alloc, line);
        }
    }
    Ok(None)
}

// Whether the source of a mount is one of these devices. Only a whole path is taken for the name of one.
fn is_from<R: Files>(
    rt: &R,
    alloc: Global,
    line: &[u8],
    family: &[DeviceNumbers],
) -> io::Result<bool> {
    let source = source_of(line).unwrap_or(b"");
    if !source.starts_with(b"/") {
        return Ok(false);
    }
    match device_at(rt, alloc, source) {
        Ok(Some(device)) => Ok(family.contains(&device)),
        Ok(None) => Ok(false),
        Err(error) => Err(error),
    }
}

// The use by a mount.
fn mounted(alloc: Global, line: &[u8]) -> io::Result<Option<Use>> {
    let path = path_of(alloc, place_of(line).unwrap_or(line))?;
    let place = String::from_utf8_lossy(alloc, path.as_slice())?;
    Ok(Some(Use::Mounted(place)))
}

// By what the device with these numbers is in use, itself.
fn use_of_one<R: Files>(
    rt: &R,
    alloc: Global,
    device: DeviceNumbers,
    mounts: &[u8],
    swaps: &[DeviceNumbers],
) -> io::Result<Option<Use>> {
    let text = device.text(alloc)?;
    if let Some(line) = mount_of(mounts, text.as_bytes()) {
        return mounted(alloc, line);
    }
    if swaps.contains(&device) {
        return Ok(Some(Use::Swap));
    }
    holder_of(rt, alloc, device)
}

// The first device that stands on this one.
fn holder_of<R: Files>(rt: &R, alloc: Global, device: DeviceNumbers) -> io::Result<Option<Use>> {
    let names = names_of(rt, alloc, device.folder(alloc)?.as_str(), "holders/")?;
    match first_entry(names.as_slice()) {
        Some(name) => Ok(Some(Use::PartOf(String::from_utf8_lossy(alloc, name)?))),
        None => Ok(None),
    }
}

// The first name of something in a folder.
fn first_entry(names: &[u8]) -> Option<&[u8]> {
    for name in names.split(is_nul) {
        if is_entry(name) {
            return Some(name);
        }
    }
    None
}

// Whether the name of a folder's entry is of something in it.
fn is_entry(name: &[u8]) -> bool {
    !matches!(name, b"" | b"." | b"..")
}

// The numbers of the device, of its partitions, and of the disk that it is a partition of: what is done to one is done to the others.
fn family_of<R: Files>(
    rt: &R,
    alloc: Global,
    device: DeviceNumbers,
) -> io::Result<Vec<DeviceNumbers>> {
    let mut family = Vec::new(alloc);
    family.push(device)?;
    let folder = device.folder(alloc)?;
    add_parts(rt, alloc, folder.as_str(), &mut family)?;
    add_if_part(rt, alloc, folder.as_str(), "../dev", &mut family)?;
    Ok(family)
}

// Adds the numbers of each partition of the disk whose folder this is.
fn add_parts<R: Files>(
    rt: &R,
    alloc: Global,
    folder: &str,
    family: &mut Vec<DeviceNumbers>,
) -> io::Result<()> {
    let names = names_of(rt, alloc, folder, "")?;
    for name in names.as_slice().split(is_nul) {
        if is_entry(name) {
            add_part(rt, alloc, folder, name, family)?;
        }
    }
    Ok(())
}

// Adds the numbers of the entry, if it is a partition.
fn add_part<R: Files>(
    rt: &R,
    alloc: Global,
    disk: &str,
    name: &[u8],
    family: &mut Vec<DeviceNumbers>,
) -> io::Result<()> {
    let name = String::from_utf8_lossy(alloc, name)?;
    let folder = format!(in alloc; "{disk}/{name}")?;
    add_if_part(rt, alloc, folder.as_str(), "dev", family)
}

// Adds the numbers that this file of a device's folder says, if the device is a partition.
fn add_if_part<R: Files>(
    rt: &R,
    alloc: Global,
    folder: &str,
    file: &str,
    family: &mut Vec<DeviceNumbers>,
) -> io::Result<()> {
    if !is_part(rt, alloc, folder)? {
        return Ok(());
    }
    match DeviceNumbers::at(rt, alloc, folder, file) {
        Ok(Some(device)) => Ok(family.push(device)?),
        Ok(None) => Ok(()),
        Err(error) => Err(error),
    }
}

// Whether the device whose folder this is is a partition.
fn is_part<R: Files>(rt: &R, alloc: Global, folder: &str) -> io::Result<bool> {
    let mark = format!(in alloc; "{folder}/partition")?;
    Ok(fs::metadata(rt, mark.as_str()).is_ok())
}

// The numbers of the block devices that are swap.
fn swaps_of<R: Files>(rt: &R, alloc: Global) -> io::Result<Vec<DeviceNumbers>> {
    let text = text_of(rt, alloc, "/proc", "swaps")?;
    let mut swaps = Vec::new(alloc);
    for line in text.as_slice().split(is_newline) {
        add_swap(rt, alloc, line, &mut swaps)?;
    }
    Ok(swaps)
}

// Adds the numbers of the swap that the line is of, if it is a block device.
fn add_swap<R: Files>(
    rt: &R,
    alloc: Global,
    line: &[u8],
    swaps: &mut Vec<DeviceNumbers>,
) -> io::Result<()> {
    match device_at(rt, alloc, field_of(line, 0).unwrap_or(line)) {
        Ok(Some(device)) => Ok(swaps.push(device)?),
        Ok(None) => Ok(()),
        Err(error) => Err(error),
    }
}

// The numbers of the block device of this name, if it is one.
fn device_at<R: Files>(rt: &R, alloc: Global, path: &[u8]) -> io::Result<Option<DeviceNumbers>> {
    let path = String::from_utf8_lossy(alloc, path)?;
    match fs::metadata(rt, path.as_str()) {
        Ok(metadata) if metadata.file_type().is_block_device() => {
            Ok(Some(DeviceNumbers::of(metadata.rdev())))
        }
        _ => Ok(None),
    }
}
