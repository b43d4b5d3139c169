// The loop devices of the system that stand on a file.
use crate::devices::DeviceNumbers;
use crate::extents::Extent;
use crate::identities::Identity;
use crate::layers::Layers;
use crate::numbers::line_at;
use crate::tables::{is_nul, names_of};
use std::alloc::Global;
use std::io;
use std::io::ErrorKind;
use std::rt::Files;

/// The loop devices that stand on a file.
#[derive(Drop)]
pub struct Loops {
    all: Vec<Loop>,
}

/// A loop device that stands on a file, and which bytes of the lowest disk or file it has.
#[derive(Drop)]
pub(crate) struct Loop {
    pub name: String,
    pub numbers: DeviceNumbers,
    pub extent: Extent,
}

impl Loops {
    /// Those that the system has now. An error is want of memory, or says that they can't be seen.
    pub fn of<R: Files>(rt: &R, alloc: Global) -> io::Result<Loops> {
        let names = names_of(rt, alloc, "/sys/block", "")?;
        if names.is_empty() {
            return Err(io::Error::from(ErrorKind::NotFound));
        }
        let mut loops = Loops {
            all: Vec::new(alloc),
        };
        for name in names.as_slice().split(is_nul) {
            loops.add(rt, alloc, name)?;
        }
        Ok(loops)
    }

    /// All of them.
    pub(crate) fn all(&self) -> &[Loop] {
        self.all.as_slice()
    }

    // Adds the device of this name, if it is a loop device that stands on a file.
    fn add<R: Files>(&mut self, rt: &R, alloc: Global, name: &[u8]) -> io::Result<()> {
        if name.starts_with(b"loop") {
            let name = String::from_utf8_lossy(alloc, name)?;
            if let Some(numbers) = loop_numbers(rt, alloc, name.as_str())? {
                let extent = extent_of(rt, alloc, numbers)?;
                self.all.push(Loop {
                    name,
                    numbers,
                    extent,
                })?;
            }
        }
        Ok(())
    }
}

impl Loop {
    /// Whether it has some of the bytes of these layers, and isn't one of them.
    pub(crate) fn is_over(&self, layers: &Layers) -> bool {
        self.extent.overlaps(layers.extent) && !layers.has(self.numbers.number())
    }
}

// The numbers of the loop device of this name, if it stands on a file.
fn loop_numbers<R: Files>(rt: &R, alloc: Global, name: &str) -> io::Result<Option<DeviceNumbers>> {
    let folder = format!(in alloc; "/sys/block/{name}")?;
    if line_at(rt, alloc, folder.as_str(), "loop/offset")?.is_empty() {
        return Ok(None);
    }
    DeviceNumbers::at(rt, alloc, folder.as_str(), "dev")
}

// Which bytes of the lowest disk or file a device has.
fn extent_of<R: Files>(rt: &R, alloc: Global, numbers: DeviceNumbers) -> io::Result<Extent> {
    let device = Identity::Device(numbers.number());
    Ok(Layers::under(rt, alloc, device)?.extent)
}
