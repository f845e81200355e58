ghost use Rattle.std.specs.Prelude.{◌≡◌, ◌↔◌, ◌<◌, [], ◌∷◌, length, slice_index, IsTrue, MatchOption};
ghost use Rattle.spatial_hash.specs.Table.{entries_in};
ghost use Rattle.fusion_core.specs.declared.touch.event.Touch.TheVariants.{Seen, Place, Node, Fill, Link};
ghost use Rattle.fusion_core.specs.TouchWords.{counter_at};
ghost use Rattle.fusion_core.specs.TouchMachine.{IsAllowed, IsNextFor, HasNodes, RuleHolds};

use super::TouchCore;
use crate::touch::event::Touch;
use crate::touch::seat::Unlinked;
use voxel_block::BlockKey;

impl TouchCore {
    /// Whether a seat may make a step.
    pub(super) fn allows(&self, seat: usize, touch: Touch) -> bool
        ensures allowed { IsTrue result ↔ IsAllowed self.now seat touch }
        ensures rule { RuleHolds self.now }
    {
        if !self.has_seat(seat) {
            return false;
        }
        match touch {
            Touch::Seen { word, key } => self.may_load(seat, word as usize, key),
            Touch::Place { entry, key } => self.may_place(seat, entry as usize, key),
            Touch::Node => self.may_draw(seat),
            Touch::Fill { key } => self.may_fill(seat, key),
            Touch::Link { word } => self.may_link(seat, word as usize),
        }
    }

    /// Whether a seat may load a word, in a step for a key.
    fn may_load(&self, seat: usize, word: usize, key: BlockKey) -> bool
        requires { seat < length self.now.seats }
        ensures { IsTrue result ↔ IsAllowed self.now seat (Seen word key) }
    {
        self.is_next(seat, key.word(), word)
    }

    /// Whether a seat may place a key at an entry.
    fn may_place(&self, seat: usize, entry: usize, key: BlockKey) -> bool
        requires { seat < length self.now.seats }
        ensures { IsTrue result ↔ IsAllowed self.now seat (Place entry key) }
    {
        if !self.is_next(seat, key.word(), entry) {
            return false;
        }
        if entry >= self.entries() {
            return false;
        }
        self.is_zero(entry)
    }

    /// Whether a seat may draw a number.
    fn may_draw(&self, seat: usize) -> bool
        requires { seat < length self.now.seats }
        ensures { IsTrue result ↔ IsAllowed self.now seat Node }
    {
        match self.node(seat) {
            Some(_) => false,
            None => true,
        }
    }

    /// Whether a seat may store a key.
    fn may_fill(&self, seat: usize, key: BlockKey) -> bool
        requires { seat < length self.now.seats }
        ensures { IsTrue result ↔ IsAllowed self.now seat (Fill key) }
    {
        // Any key may be stored.
        let _ = key;
        match self.node(seat) {
            Some(_) => true,
            None => false,
        }
    }

    /// Whether a seat may link its node at a word.
    fn may_link(&self, seat: usize, word: usize) -> bool
        requires { seat < length self.now.seats }
        ensures { IsTrue result ↔ IsAllowed self.now seat (Link word) }
    {
        let Some(node) = self.node(seat) else {
            return false;
        };
        if node.word == 0 {
            return false;
        }
        if !self.is_next(seat, node.word, word) {
            return false;
        }
        if word < self.entries() {
            return false;
        }
        self.is_zero(word)
    }

    /// Whether there is a seat of this number.
    fn has_seat(&self, seat: usize) -> bool
        ensures there { IsTrue result ↔ (seat < length self.now.seats) }
        ensures rule { RuleHolds self.now }
    {
        seat < self.seats.len()
    }

    /// Whether a word is the next one on a seat's walk, for the key with a word.
    fn is_next(&self, seat: usize, key: u64, word: usize) -> bool
        requires { seat < length self.now.seats }
        ensures next { IsTrue result ↔ IsNextFor self.now seat key word }
        ensures low { IsTrue result → word < counter_at self.now.start }
    {
        self.seats[seat].is_next(self.size, key, word)
    }

    /// A seat's unlinked node.
    fn node(&self, seat: usize) -> Option<Unlinked>
        requires { seat < length self.now.seats }
        ensures { MatchOption result (HasNodes self.now seat []) (λ n. HasNodes self.now seat ((n.number, n.word) ∷ [])) }
    {
        self.seats[seat].node()
    }

    /// The number of entries.
    fn entries(&self) -> usize
        ensures { result ≡ entries_in self.now.start }
    {
        self.size.entries()
    }

    /// Whether a word is 0.
    fn is_zero(&self, word: usize) -> bool
        requires { word < counter_at self.now.start }
        ensures { IsTrue result ↔ (slice_index self.now.words word ≡ 0) }
    {
        self.words[word] == 0
    }
}
