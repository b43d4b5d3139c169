// The rule that every step of the hand-over keeps.
use crate::parcel::{Parcel, PassState};
use crossbeam_channel::protocol::{Join, Lesson, Outcome, Protocol, Split};

pub struct Balance;

impl Protocol<Parcel, PassState> for Balance {
    ghost use Rattle.jr_crew_channel.specs.PassStates.{first_state};
    ghost use Rattle.jr_crew_channel.specs.Balance.{IsBalanced};

    ghost holds = { IsBalanced };

    ghost first = { first_state };
}

// A pass is cut in two, or takes in another.
pub struct Cut;

impl Split<PassState> for Cut {
    ghost use Rattle.jr_crew_channel.specs.PassStates.{kept_of, given_of};

    ghost left = { kept_of };

    ghost right = { given_of };
}

impl Join<PassState> for Cut {
    ghost use Rattle.jr_crew_channel.specs.PassStates.{joined_of, spent_state};

    ghost both = { joined_of };

    ghost spent = { spent_state };
}

// A parcel is put at the back.
pub struct Puts;

impl Outcome<Parcel, PassState> for Puts {
    ghost use Rattle.std.specs.Prelude.{◌≡◌};
    ghost use Rattle.jr_crew_channel.specs.PassStates.{with_put};

    ghost then = { λ v x w. w ≡ with_put v x };
}

impl Lesson<Parcel, PassState> for Puts {
    ghost use Rattle.std.specs.Prelude.{⊤};

    ghost fact = { λ v items. ⊤ };
}

// A parcel is taken from the front.
pub struct Takes;

impl Outcome<Parcel, PassState> for Takes {
    ghost use Rattle.std.specs.Prelude.{◌≡◌};
    ghost use Rattle.jr_crew_channel.specs.PassStates.{with_taken};

    ghost then = { λ v x w. w ≡ with_taken v x };
}

impl Lesson<Parcel, PassState> for Takes {
    ghost use Rattle.std.specs.Prelude.{⊤};

    ghost fact = { λ v items. ⊤ };
}

// What a pass with every part knows of the parcels that are left.
pub struct Remainder;

impl Lesson<Parcel, PassState> for Remainder {
    ghost use Rattle.std.specs.Prelude.{◌++◌};
    ghost use Rattle.std.specs.List.Sorted.{IsPermutation};

    ghost fact = { λ v items. IsPermutation v.put (v.taken ++ items) };
}
