use jr_header::Served;
use std::collections::LinkedList;

/// What a worker hands to a verifier.
#[derive(Drop)]
pub enum Parcel {
    /// A check that ended whole, to be judged.
    Check(Served),
    /// Nothing more comes: the verifier ends.
    Stop,
}

// What a pass knows: how many parts of how many it holds, and what its thread put and took. No value of it is made.
pub struct PassState {
    pub parts: u64,
    pub of: u64,
    pub put: LinkedList<Parcel>,
    pub taken: LinkedList<Parcel>,
}
