// Places of files, and when two are one.
ghost use Rattle.std.specs.Prelude.{◌↔◌, IsTrue, length, MatchOption};
ghost use Rattle.jr_report_outputs.specs.Spots.{IsFirstMet, IsOne, MeetsNone};

use jr_io_devices::Identity;

/// A place that a file has or may get, whatever its names.
#[derive(Drop)]
pub enum Spot {
    /// A file that is there.
    File(Identity),
    /// A device of characters, by its number.
    Character(u64),
    /// A file that isn't there yet: its folder, and its name there.
    Ahead(Identity, String),
}

/// The first of these places that is this one.
pub fn met_by(spot: &Spot, others: &[Spot]) -> Option<usize>
    ensures { MatchOption result (MeetsNone spot.now others.now (length others.now)) (λ place. IsFirstMet spot.now others.now place) }
{
    for place in 0..others.len() {
        if is_one(&others[place], spot) {
            return Some(place);
        }
    }
    None
}

fn is_one(one: &Spot, other: &Spot) -> bool
    ensures { IsTrue result ↔ IsOne one.now other.now }
{
    match (one, other) {
        (Spot::File(one), Spot::File(other)) => *one == *other,
        (Spot::Character(one), Spot::Character(other)) => *one == *other,
        (Spot::Ahead(folder, name), Spot::Ahead(other_folder, other)) => {
            *folder == *other_folder && name.as_str() == other.as_str()
        }
        _ => false,
    }
}
