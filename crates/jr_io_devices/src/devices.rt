ghost use Rattle.std.specs.Prelude.{◌≡◌, string_bytes, IfOk};
ghost use Rattle.jr_io_devices.specs.Devices.{numbers_of, numbers_text};

use crate::numbers::{line_at, small_number_in};
use std::alloc::{AllocError, Global};
use std::io;
use std::rt::Files;

/// The numbers of a device's driver and, under it, of the device.
#[derive(Clone, Copy, PartialEq, Eq)]
pub struct DeviceNumbers {
    /// The driver's.
    pub major: u32,
    /// The device's.
    pub minor: u32,
}

impl DeviceNumbers {
    /// The numbers in the one that the system gives of a file.
    pub fn of(device: u64) -> DeviceNumbers
        ensures { result ≡ numbers_of device }
    {
        let major = (device >> 8) % (1 << 12) + (device >> 44) * (1 << 12);
        let minor = device % (1 << 8) + (device >> 20) % (1 << 24) * (1 << 8);
        DeviceNumbers {
            major: major as u32,
            minor: minor as u32,
        }
    }

    /// The numbers in a text of the kernel's, `MAJOR:MINOR`.
    pub(crate) fn in_text(text: &str) -> Option<DeviceNumbers> {
        let (major, minor) = text.split_once(':')?;
        Some(DeviceNumbers {
            major: small_number_in(major)?,
            minor: small_number_in(minor)?,
        })
    }

    /// The numbers in this file of a folder of the kernel's, if it has some.
    pub(crate) fn at<R: Files>(
        rt: &R,
        alloc: Global,
        folder: &str,
        file: &str,
    ) -> io::Result<Option<DeviceNumbers>> {
        match line_at(rt, alloc, folder, file) {
            Ok(line) => Ok(DeviceNumbers::in_text(line.as_str())),
            Err(error) => Err(error),
        }
    }

    /// The one number that the system gives of a file, for these.
    pub(crate) fn number(self) -> u64
        ensures { numbers_of result ≡ self }
    {
        let major = u64::from(self.major);
        let minor = u64::from(self.minor);
        let low = minor % (1 << 8) + major % (1 << 12) * (1 << 8);
        low + minor / (1 << 8) * (1 << 20) + major / (1 << 12) * (1 << 44)
    }

    /// `MAJOR:MINOR`, as the kernel's tables name the device.
    pub fn text(self, alloc: Global) -> Result<String, AllocError>
        ensures { IfOk result (λ text. string_bytes text ≡ numbers_text self) }
    {
        let major = self.major;
        let minor = self.minor;
        format!(in alloc; "{major}:{minor}")
    }

    /// The device's folder among those of the kernel.
    pub(crate) fn folder(self, alloc: Global) -> Result<String, AllocError> {
        let DeviceNumbers { major, minor } = self;
        format!(in alloc; "/sys/dev/block/{major}:{minor}")
    }
}
