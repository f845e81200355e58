ghost use Rattle.std.specs.Prelude.{◌≡◌};
ghost use Rattle.fusion_core.specs.declared.touch.event.Touch.TheVariants.{Seen, Place, Node, Fill, Link};
ghost use Rattle.fusion_core.specs.TouchMachine.{IsAllowed, RuleHolds, Steps};

use super::TouchCore;
use voxel_block::BlockKey;

impl TouchCore {
    /// A seat loads a word, in a step for a key.
    pub(super) fn load(&mut self, seat: usize, word: usize, key: BlockKey)
        requires { IsAllowed self.old seat (Seen word key) }
        ensures step { Steps self.old seat (Seen word key) self.new }
        ensures rule { RuleHolds self.new }
    {
        let value = self.words[word];
        self.seats[seat].load(self.size, key.word(), word, value);
    }

    /// A seat places a key at an entry.
    pub(super) fn place(&mut self, seat: usize, entry: usize, key: BlockKey)
        requires { IsAllowed self.old seat (Place entry key) }
        ensures step { Steps self.old seat (Place entry key) self.new }
        ensures rule { RuleHolds self.new }
    {
        let key = key.word();
        self.words[entry] = key;
        self.seats[seat].place(key, entry);
    }

    /// A seat draws a number.
    pub(super) fn draw(&mut self, seat: usize)
        requires { IsAllowed self.old seat Node }
        ensures step { Steps self.old seat Node self.new }
        ensures rule { RuleHolds self.new }
    {
        let counter = self.size.counter();
        let number = self.words[counter];
        self.words[counter] = number + self.seats[seat].draw_step();
        self.seats[seat].draw(self.size.nodes, number);
    }

    /// A seat stores a key in its unlinked node.
    pub(super) fn fill(&mut self, seat: usize, key: BlockKey)
        requires { IsAllowed self.old seat (Fill key) }
        ensures step { Steps self.old seat (Fill key) self.new }
        ensures rule { RuleHolds self.new }
    {
        let Some(node) = self.seats[seat].node() else {
            unreachable!()
        };
        let key = key.word();
        self.words[4 * self.size.buckets + node.number] = key;
        self.seats[seat].store(key);
    }

    /// A seat links its unlinked node.
    pub(super) fn link(&mut self, seat: usize, word: usize)
        requires { IsAllowed self.old seat (Link word) }
        ensures step { Steps self.old seat (Link word) self.new }
        ensures rule { RuleHolds self.new }
    {
        let Some(node) = self.seats[seat].node() else {
            unreachable!()
        };
        self.words[word] = node.number as u64 + 1;
        self.seats[seat].link(word, node, 4 * self.size.buckets + node.number);
    }
}
