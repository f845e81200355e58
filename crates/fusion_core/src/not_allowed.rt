/// The machine does not allow this step now, and nothing changed.
#[derive(Clone, Copy, Debug, PartialEq, Eq)]
pub struct NotAllowed;
