/// A linked node, and the link that leads to it. Link h is that of bucket h, and link buckets + n is that
/// of node n.
#[derive(Clone, Copy)]
pub struct LinkedNode {
    pub node: usize,
    pub link: usize,
}
