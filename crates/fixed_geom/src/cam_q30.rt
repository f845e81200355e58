/// The scaled camera coordinates of a world point: its offsets along the camera's three axes, in units
/// of `2^-30` micrometres, before the floor.
#[derive(Clone, Copy, Debug, PartialEq, Eq)]
pub struct CamQ30 {
    pub x: i128,
    pub y: i128,
    pub z: i128,
}
