ghost use Rattle.std.specs.Prelude.{◌≡◌, ℕ, List, ◌+◌, ◌*◌, ◌<◌, ◌≤◌, ◌^◌, ◌∷◌, length, IfOk, IfErr};
ghost use Rattle.spatial_hash.specs.Hash.{home};
ghost use Rattle.fusion_core.specs.TouchWords.{shown, Passes};
ghost use Rattle.hash_share.specs.Steps.{past};
ghost use Rattle.fusion_core.specs.TouchSteps.{IsNextLink};
ghost use Rattle.hash_share.specs.Touching.{IsTied, IsHop, IsOn, IsTouched};

use crate::hand::Hand;
use crate::hop::Hop;
use crate::touched::Touched;
use crate::walks::Walks;

impl Walks {
    /// An unlinked node of the seat: the last one that it has, or else a new one. Where none is left, the
    /// number that was drawn.
    fn own_node(&self, hand: &mut Hand) -> Result<usize, u64>
        requires seat { hand.old.seat.table_id ≡ self.now.table.shared.table_id }
        requires tied { IsTied self.now.table.shared.key.start.value hand.old.seat.me hand.old.spares hand.old.marked }
        ensures seat { (hand.new.seat.table_id ≡ hand.old.seat.table_id) × (hand.new.seat.id ≡ hand.old.seat.id) }
        ensures tied { IsTied self.now.table.shared.key.start.value hand.new.seat.me hand.new.spares hand.new.marked }
        ensures node { IfOk result (λ n. (n < self.now.nodes) × ((y : ℕ) × (ps : List (ℕ × ℕ)) × (hand.new.seat.me.0.nodes ≡ (n, y) ∷ ps))) }
        ensures same { IfOk result (λ _. hand.new.seat.me.0 ≡ record hand.old.seat.me.0 { nodes = hand.new.seat.me.0.nodes }) }
        ensures out { IfErr result (λ d. (self.now.nodes ≤ d) × (hand.new.seat.me.0 ≡ past d hand.old.seat.me.0)) }
    {
        if let Some(node) = hand.spares.top() {
            return Ok(node as usize);
        }
        let step = if hand.marked { 0 } else { 1 };
        let drawn = self.draw(&mut hand.seat, step);
        if drawn < self.nodes as u64 {
            hand.spares.push(drawn as u32);
            return Ok(drawn as usize);
        }
        hand.marked = true;
        Err(drawn)
    }

    /// Links the seat's last unlinked node with the key at the end of the chain, or follows the link that
    /// stands there by then.
    #[tactic(auto, using(crate::proofs::Hops::tied_stored, crate::proofs::Hops::tied_saw, crate::proofs::Hops::tied_hung, crate::proofs::Hops::hop_lost, crate::proofs::Hops::hop_linked))]
    fn link(&self, hand: &mut Hand, link: usize, node: usize, key: u64) -> Hop
        requires key { (0 < key) × (key ≤ 2 ^ 48) }
        requires seat { hand.old.seat.table_id ≡ self.now.table.shared.table_id }
        requires tied { IsTied self.now.table.shared.key.start.value hand.old.seat.me hand.old.spares hand.old.marked }
        requires link { link < self.now.buckets + self.now.nodes }
        requires reached { IsNextLink hand.old.seat.me.0.start hand.old.seat.me.0.seen key link }
        requires node { (node < self.now.nodes) × ((y : ℕ) × (ps : List (ℕ × ℕ)) × (hand.old.seat.me.0.nodes ≡ (node, y) ∷ ps)) }
        ensures seat { (hand.new.seat.table_id ≡ hand.old.seat.table_id) × (hand.new.seat.id ≡ hand.old.seat.id) }
        ensures tied { IsTied self.now.table.shared.key.start.value hand.new.seat.me hand.new.spares hand.new.marked }
        ensures hop { IsHop key link hand.old.seat.me.0 hand.new.seat.me.0 result }
        ensures node { (d : ℕ) → result ≡ Hop.Out d → ⊥ }
    {
        self.store(&mut hand.seat, node, key);
        let next = self.hang(&mut hand.seat, link, node, key);
        if next != 0 {
            return Hop::Node(next as usize - 1);
        }
        hand.spares.pop();
        Hop::Linked(node)
    }

    /// Follows a link of the chain of the key's bucket, and links the key there where the chain ends.
    #[tactic(auto, using(crate::proofs::Hops::tied_saw, crate::proofs::Hops::hop_node, crate::proofs::Hops::hop_out, crate::proofs::Hops::hop_own, crate::proofs::Hops::reached_own))]
    pub fn hop(&self, hand: &mut Hand, link: usize, key: u64) -> Hop
        requires key { (0 < key) × (key ≤ 2 ^ 48) }
        requires seat { hand.old.seat.table_id ≡ self.now.table.shared.table_id }
        requires tied { IsTied self.now.table.shared.key.start.value hand.old.seat.me hand.old.spares hand.old.marked }
        requires link { link < self.now.buckets + self.now.nodes }
        requires reached { IsNextLink hand.old.seat.me.0.start hand.old.seat.me.0.seen key link }
        ensures seat { (hand.new.seat.table_id ≡ hand.old.seat.table_id) × (hand.new.seat.id ≡ hand.old.seat.id) }
        ensures tied { IsTied self.now.table.shared.key.start.value hand.new.seat.me hand.new.spares hand.new.marked }
        ensures hop { IsHop key link hand.old.seat.me.0 hand.new.seat.me.0 result }
    {
        let next = self.follow(&mut hand.seat, link, key);
        if next != 0 {
            return Hop::Node(next as usize - 1);
        }
        match self.own_node(hand) {
            Ok(node) => self.link(hand, link, node, key),
            Err(drawn) => Hop::Out(drawn),
        }
    }

    /// Touches the key behind a link of the chain of its bucket, or goes on to the next link.
    #[tactic(auto, using(crate::proofs::Chaining::on_node_by, crate::proofs::Chaining::old_node_by, crate::proofs::Chaining::new_linked_by, crate::proofs::Chaining::spent_out, crate::proofs::Chaining::tied_found))]
    fn go_on(&self, hand: &mut Hand, link: usize, key: u64) -> Result<usize, Touched>
        requires key { (0 < key) × (key ≤ 2 ^ 48) }
        requires seat { hand.old.seat.table_id ≡ self.now.table.shared.table_id }
        requires tied { IsTied self.now.table.shared.key.start.value hand.old.seat.me hand.old.spares hand.old.marked }
        requires link { link < self.now.buckets + self.now.nodes }
        requires reached { IsNextLink hand.old.seat.me.0.start hand.old.seat.me.0.seen key link }
        ensures seat { (hand.new.seat.table_id ≡ hand.old.seat.table_id) × (hand.new.seat.id ≡ hand.old.seat.id) }
        ensures tied { IsTied self.now.table.shared.key.start.value hand.new.seat.me hand.new.spares hand.new.marked }
        ensures next { IfOk result (λ l. IsOn key link hand.old.seat.me.0 hand.new.seat.me.0 l) }
        ensures touched { IfErr result (λ t. IsTouched key hand.old.seat.me.0 hand.new.seat.me.0 t) }
    {
        match self.hop(hand, link, key) {
            Hop::Node(node) => {
                let entry = 4 * self.buckets + node;
                if self.look(&mut hand.seat, entry, key) == key {
                    return Err(Touched::Old(entry as u32));
                }
                Ok(self.buckets + node)
            }
            Hop::Linked(node) => Err(Touched::New((4 * self.buckets + node) as u32)),
            Hop::Out(drawn) => Err(Touched::Spent { drawn }),
        }
    }

    /// Touches a key in the chain of its bucket, the entries of which have other keys.
    #[tactic(auto, using(crate::proofs::Chaining::chain_first, crate::proofs::Chaining::chain_reached, crate::proofs::Chaining::chain_next, crate::proofs::Chaining::chain_touched, crate::proofs::Chaining::chain_low, crate::proofs::Chaining::chain_past))]
    pub fn touch_chain(&self, hand: &mut Hand, bucket: usize, key: u64) -> Touched
        requires key { (0 < key) × (key ≤ 2 ^ 48) }
        requires seat { hand.old.seat.table_id ≡ self.now.table.shared.table_id }
        requires tied { IsTied self.now.table.shared.key.start.value hand.old.seat.me hand.old.spares hand.old.marked }
        requires bucket { (bucket ≡ home hand.old.seat.me.0.start.buckets key) × (bucket < hand.old.seat.me.0.start.buckets) }
        requires passed { Passes (shown hand.old.seat.me.0.start hand.old.seat.me.0.seen) key (home hand.old.seat.me.0.start.buckets key) 4 }
        ensures seat { (hand.new.seat.table_id ≡ hand.old.seat.table_id) × (hand.new.seat.id ≡ hand.old.seat.id) }
        ensures tied { IsTied self.now.table.shared.key.start.value hand.new.seat.me hand.new.spares hand.new.marked }
        ensures touched { IsTouched key hand.old.seat.me.0 hand.new.seat.me.0 result }
    {
        let mut link = bucket;
        for _ in 0..self.nodes + 1 {
            match self.go_on(hand, link, key) {
                Ok(next) => link = next,
                Err(touched) => return touched,
            }
        }
        unreachable!()
    }
}
