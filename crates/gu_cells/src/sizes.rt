//! How many cells and seats there are.

/// How many cells and seats were asked for.
#[derive(Clone, Copy, Drop)]
pub struct Sizes {
    pub cells: usize,
    pub seats: u32,
}
