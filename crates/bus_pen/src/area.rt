//! Where a box of a picture is.
/// Where a box is. A unit is a tenth of a pixel.
#[derive(Clone, Copy, Debug, PartialEq, Eq)]
pub struct Area {
    /// Its left edge.
    pub left: u64,
    /// Its upper edge.
    pub top: u64,
    /// Its width.
    pub width: u64,
    /// Its height.
    pub height: u64,
}
