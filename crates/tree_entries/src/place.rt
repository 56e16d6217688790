/// Where a square block stands in its matrix.
#[derive(Clone, Copy)]
pub(crate) struct Place {
    /// How many strips stand above it: rows of leaf blocks.
    pub(crate) above: u32,
    /// How many leaf blocks stand to the left of it.
    pub(crate) left: u32,
    /// Whether it is its transpose that stands there.
    pub(crate) turned: bool,
}
