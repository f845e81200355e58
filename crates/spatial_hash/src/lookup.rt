/// What a look-up of a key in its bucket finds.
#[derive(Clone, Copy)]
pub enum Lookup {
    /// The entry that has the key.
    Found(usize),
    /// The bucket's first free entry, where no entry has the key.
    Vacant(usize),
    /// The last link of the bucket's chain, where the bucket is filled and no entry has the key.
    ChainEnd(usize),
}
