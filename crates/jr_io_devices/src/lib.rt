// Which file of the system a file is, which bytes of a disk or file a device has, and by what either is in use.
#![tactic(auto)]

mod devices;
mod extents;
mod identities;
mod in_use;
mod layers;
mod links;
mod loops;
mod numbers;
mod places;
mod tables;
mod uses;

pub use devices::DeviceNumbers;
pub use extents::{Extent, first_overlap};
pub use identities::{FileNumbers, Identity, first_twins};
pub use in_use::{use_beside, use_of};
pub use layers::Layers;
pub use links::{end_of_links, folder_of, linked, name_in};
pub use loops::Loops;
pub use uses::Use;
