// What the bytes of a device are bytes of: of the disk of a partition, of the file under a loop device.
use crate::devices::DeviceNumbers;
use crate::extents::{Below, Extent, sector_start};
use crate::identities::{FileNumbers, Identity};
use crate::numbers::{line_at, number_at};
use std::alloc::Global;
use std::rt::Files;
use std::{fs, io};

// More than ever stand on one another.
const MOST_LAYERS: usize = 32;

/// The devices that the bytes of a file go through, and which bytes of the lowest disk or file they are.
#[derive(Drop)]
pub struct Layers {
    /// The bytes of the lowest.
    pub extent: Extent,
    // The numbers of the devices, that of the file itself first.
    devices: Vec<u64>,
    // Those that loop devices stand on.
    backing: Vec<Backing>,
}

/// A block device that a loop device stands on.
#[derive(Drop)]
pub(crate) struct Backing {
    pub name: String,
    pub numbers: DeviceNumbers,
}

impl Layers {
    /// Those of the file with these numbers. The lowest is the last that the system says something of.
    pub fn of<R: Files>(rt: &R, alloc: Global, numbers: FileNumbers) -> io::Result<Layers> {
        Layers::under(rt, alloc, numbers.identity())
    }

    /// Those of the file of this identity.
    pub(crate) fn under<R: Files>(rt: &R, alloc: Global, what: Identity) -> io::Result<Layers> {
        let mut layers = Layers {
            extent: whole(rt, alloc, what)?,
            devices: Vec::new(alloc),
            backing: Vec::new(alloc),
        };
        for _ in 0..MOST_LAYERS {
            if !layers.goes_down(rt, alloc)? {
                break;
            }
        }
        Ok(layers)
    }

    /// Whether the bytes go through the device of this number.
    pub(crate) fn has(&self, device: u64) -> bool {
        self.devices.as_slice().contains(&device)
    }

    /// The devices among them that loop devices stand on.
    pub(crate) fn backing(&self) -> &[Backing] {
        self.backing.as_slice()
    }

    // Goes down by one layer, if there is one.
    fn goes_down<R: Files>(&mut self, rt: &R, alloc: Global) -> io::Result<bool> {
        let Identity::Device(device) = self.extent.what else {
            return Ok(false);
        };
        self.devices.push(device)?;
        let folder = DeviceNumbers::of(device).folder(alloc)?;
        if let Some(disk) = disk_of(rt, alloc, folder.as_str())? {
            self.extent = self.extent.part_of(disk);
            return Ok(true);
        }
        self.goes_to_file(rt, alloc, folder.as_str())
    }

    // Goes down to the file under the loop device whose folder this is, if there is one.
    fn goes_to_file<R: Files>(&mut self, rt: &R, alloc: Global, folder: &str) -> io::Result<bool> {
        let Some(offset) = number_at(rt, alloc, folder, "loop/offset")? else {
            return Ok(false);
        };
        let name = line_at(rt, alloc, folder, "loop/backing_file")?;
        // (a file that was removed has no name any more)
        let Ok(metadata) = fs::metadata(rt, name.as_str()) else {
            return Ok(false);
        };
        let file = FileNumbers::of(&metadata);
        self.extent = self.extent.part_of(Below::File(file.identity(), offset));
        if file.is_block_device {
            let numbers = DeviceNumbers::of(file.device);
            self.backing.push(Backing { name, numbers })?;
        }
        Ok(true)
    }
}

// All bytes of a disk or file: as many as a device has. Those of a plain file may become more.
fn whole<R: Files>(rt: &R, alloc: Global, what: Identity) -> io::Result<Extent> {
    let Identity::Device(device) = what else {
        return Ok(Extent::whole(what));
    };
    let folder = DeviceNumbers::of(device).folder(alloc)?;
    match number_at(rt, alloc, folder.as_str(), "size") {
        Ok(Some(sectors)) => Ok(Extent {
            what,
            start: 0,
            length: sector_start(sectors),
        }),
        Ok(None) => Ok(Extent::whole(what)),
        Err(error) => Err(error),
    }
}

// The disk of the partition whose folder this is.
fn disk_of<R: Files>(rt: &R, alloc: Global, folder: &str) -> io::Result<Option<Below>> {
    let Some(sector) = number_at(rt, alloc, folder, "start")? else {
        return Ok(None);
    };
    match DeviceNumbers::at(rt, alloc, folder, "../dev") {
        Ok(Some(disk)) => Ok(Some(Below::Disk(Identity::Device(disk.number()), sector))),
        Ok(None) => Ok(None),
        Err(error) => Err(error),
    }
}
