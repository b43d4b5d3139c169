// What many bad blocks have in common.
ghost use Rattle.std.specs.Prelude.{◌≡◌, ◌<◌, nat_lt, true, All, MatchOption};
ghost use Rattle.jr_cli_notes.specs.Common.{count_of, most_common, trait_of, traits_of};

use jr_diagnosis::{Diagnosed, Diagnosis};

// So many have to have it in common.
const LEAST: usize = 3;

/// What several bad blocks have in common, and how many have it.
#[derive(Clone, Copy, PartialEq, Eq)]
pub(crate) struct Common {
    pub what: Trait,
    pub count: usize,
}

/// What bad blocks may have in common.
#[derive(Clone, Copy, PartialEq, Eq)]
pub(crate) enum Trait {
    /// They hold what belongs so many bytes further on.
    Ahead(u64),
    /// They hold what belongs so many bytes before.
    Behind(u64),
    /// They were written with blocks of so many bytes.
    Length(u32),
}

// What a bad block may have in common with others.
fn trait_of(found: &Diagnosed) -> Option<Trait>
    ensures { result ≡ trait_of found.now }
{
    let offset = found.place.offset;
    match found.diagnosis {
        Diagnosis::Elsewhere(other) if other > offset => Some(Trait::Ahead(other - offset)),
        Diagnosis::Elsewhere(other) => Some(Trait::Behind(offset.saturating_sub(other))),
        Diagnosis::OtherLength(len) => Some(Trait::Length(len)),
        _ => None,
    }
}

// What most of them have in common, if there are enough.
pub(crate) fn most_common(found: &[Diagnosed]) -> Option<Common>
    ensures told { result ≡ most_common found.now }
    ensures nothing { result ≡ None → All (λ what. count_of found.now what < 3) (traits_of found.now) }
{
    let mut most: Option<Common> = None;
    for one in found {
        let Some(what) = trait_of(one) else {
            continue;
        };
        let count = count_of(found, what);
        if count >= LEAST && is_more(count, most) {
            most = Some(Common { what, count });
        }
    }
    most
}

fn is_more(count: usize, most: Option<Common>) -> bool
    ensures { MatchOption most (result ≡ true) (λ one. result ≡ nat_lt one.count count) }
{
    match most {
        Some(most) => count > most.count,
        None => true,
    }
}

fn count_of(found: &[Diagnosed], what: Trait) -> usize
    ensures { result ≡ count_of found.now what }
{
    let mut count: usize = 0;
    for one in found {
        if trait_of(one) == Some(what) {
            count = count.saturating_add(1);
        }
    }
    count
}
