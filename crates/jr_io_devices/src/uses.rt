use std::fmt;

/// By what a block device, or a plain file under a loop device, is in use.
#[derive(Debug, Drop)]
pub enum Use {
    /// A file system, mounted at this place.
    Mounted(String),
    /// The system's swap.
    Swap,
    /// Another device, of this name, that stands on it, and what uses that.
    PartOf(String),
    /// This loop device stands on it, and what uses that.
    Under(String),
    /// It is a loop device, and what it stands on is in use, as is said here.
    Over(String),
}

impl fmt::Display for Use {
    fn fmt<W: fmt::Write>(&self, f: &mut fmt::Formatter<W>) -> fmt::Result {
        let (how, name) = match self {
            Use::Mounted(place) => ("mounted at ", place.as_str()),
            Use::Swap => ("swap", ""),
            Use::PartOf(name) => ("part of ", name.as_str()),
            Use::Under(name) => ("under ", name.as_str()),
            Use::Over(name) => ("over ", name.as_str()),
        };
        write!(f, "{how}{name}")
    }
}
