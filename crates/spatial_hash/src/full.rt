use std::fmt;

/// No entry is left for a key: the four entries of its bucket are filled, and all nodes are linked.
#[derive(Clone, Copy, Debug, PartialEq, Eq, Drop)]
pub struct Full;

impl fmt::Display for Full {
    fn fmt<W: fmt::Write>(&self, f: &mut fmt::Formatter<W>) -> fmt::Result {
        write!(f, "no entry is left for the key")
    }
}
