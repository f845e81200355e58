ghost use Rattle.std.specs.Prelude.{◌≡◌};
ghost use Rattle.spatial_hash.specs.Table.{entries_in};
ghost use Rattle.fusion_core.specs.TouchWords.{counter_at};
ghost use Rattle.fusion_core.specs.TouchNext.{sized, IsSize};

/// The size of a hash table.
#[derive(Clone, Copy)]
pub(super) struct Size {
    pub buckets: usize,
    pub nodes: usize,
}

impl Size {
    /// The number of entries, which is also the number of key words.
    pub(super) fn entries(self) -> usize
        requires { IsSize self }
        ensures { result ≡ entries_in (sized self.buckets self.nodes) }
    {
        4 * self.buckets + self.nodes
    }

    /// The number of key words and links, which is also the number of the word that counts the drawn nodes.
    pub(super) fn counter(self) -> usize
        requires { IsSize self }
        ensures { result ≡ counter_at (sized self.buckets self.nodes) }
    {
        5 * self.buckets + 2 * self.nodes
    }
}
