/// The points of a walk from `first` to `last`; there is none where `first` is greater.
#[derive(Clone, Copy, Debug, PartialEq, Eq)]
pub struct PointRange {
    pub first: u16,
    pub last: u16,
}
