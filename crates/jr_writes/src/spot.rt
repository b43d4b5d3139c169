use jr_model::WriteId;

// The write whose piece begins at a place, and the piece's length.
#[derive(Clone, Copy)]
pub struct Spot {
    pub write: WriteId,
    pub len: u32,
}
