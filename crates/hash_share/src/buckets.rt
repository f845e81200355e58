ghost use Rattle.std.specs.Prelude.{◌≡◌, ◌⊎◌, ℕ, ◌+◌, ◌*◌, ◌<◌, ◌≤◌, ◌^◌, length};
ghost use Rattle.spatial_hash.specs.Hash.{home};
ghost use Rattle.fusion_core.specs.TouchWords.{shown, counter_at, Passes};
ghost use Rattle.hash_share.specs.Steps.{found, put, IsKept, HasPair};
ghost use Rattle.hash_share.specs.Touching.{IsSpot, IsLow, IsTied, IsTouched};

use crate::hand::Hand;
use crate::rule::Seat;
use crate::spot::Spot;
use crate::touched::Touched;
use crate::walks::Walks;

impl Walks {
    /// Reads an entry of the key's bucket, and places the key there if it is 0. The answer is what was
    /// found there.
    fn try_entry(&self, seat: &mut Seat, key: u64, entry: usize, i: usize) -> u64
        requires key { (0 < key) × (key ≤ 2 ^ 48) }
        requires seat { (seat.old.table_id ≡ self.now.table.shared.table_id) × (0 < seat.old.me.0.part) }
        requires entry { (entry < self.now.table.shared.table_id.words) × (i < 4) × (entry ≡ 4 * home seat.old.me.0.start.buckets key + i) }
        requires before { Passes (shown seat.old.me.0.start seat.old.me.0.seen) key (home seat.old.me.0.start.buckets key) i }
        ensures seat { (seat.new.table_id ≡ seat.old.table_id) × (seat.new.id ≡ seat.old.id) }
        ensures won { result ≡ 0 → seat.new.me ≡ (put key entry seat.old.me.0, seat.old.me.1) }
        ensures lost { 0 < result → seat.new.me ≡ (found key entry result seat.old.me.0, seat.old.me.1) }
        ensures kept { 0 < result → IsKept seat.old.me.0.seen entry result }
        ensures pair { (result ≡ 0) ⊎ (result ≡ key) → HasPair key entry seat.new.me.0 }
    {
        let seen = self.look(seat, entry, key);
        if seen != 0 {
            return seen;
        }
        self.place(seat, entry, key, i)
    }

    /// Touches a key in the entries of its bucket.
    #[tactic(auto, using(crate::proofs::Walking::sees_none, crate::proofs::Walking::sees_next, crate::proofs::Walking::passes_next, crate::proofs::Walking::spot_placed, crate::proofs::Walking::spot_seen))]
    pub fn touch_bucket(&self, seat: &mut Seat, key: u64, bucket: usize) -> Spot
        requires key { (0 < key) × (key ≤ 2 ^ 48) }
        requires seat { (seat.old.table_id ≡ self.now.table.shared.table_id) × (0 < seat.old.me.0.part) × (seat.old.me.0.start ≡ self.now.table.shared.key.start.value) }
        requires wide { length seat.old.me.0.seen ≡ counter_at seat.old.me.0.start + 1 }
        requires bucket { (bucket ≡ home seat.old.me.0.start.buckets key) × (bucket < self.now.buckets) }
        ensures seat { (seat.new.table_id ≡ seat.old.table_id) × (seat.new.id ≡ seat.old.id) × (seat.new.me.1 ≡ seat.old.me.1) }
        ensures wide { length seat.new.me.0.seen ≡ length seat.old.me.0.seen }
        ensures spot { IsSpot key seat.old.me.0 seat.new.me.0 result }
        ensures low { IsLow (4 * self.now.buckets) result }
    {
        for i in 0..4 {
            let entry = 4 * bucket + i;
            let seen = self.try_entry(seat, key, entry, i);
            if seen == 0 {
                return Spot::Placed(entry);
            }
            if seen == key {
                return Spot::Seen(entry);
            }
        }
        Spot::Full
    }

    /// Touches a key.
    #[tactic(auto, using(crate::proofs::Seating::tied_bucket, crate::proofs::Seating::spot_new, crate::proofs::Seating::spot_old, crate::proofs::Seating::spot_full, crate::proofs::Seating::full_start, crate::proofs::Seating::full_passed))]
    pub fn touch(&self, hand: &mut Hand, bucket: usize, key: u64) -> Touched
        requires key { (0 < key) × (key ≤ 2 ^ 48) }
        requires seat { hand.old.seat.table_id ≡ self.now.table.shared.table_id }
        requires tied { IsTied self.now.table.shared.key.start.value hand.old.seat.me hand.old.spares hand.old.marked }
        requires bucket { (bucket ≡ home hand.old.seat.me.0.start.buckets key) × (bucket < hand.old.seat.me.0.start.buckets) }
        ensures seat { (hand.new.seat.table_id ≡ hand.old.seat.table_id) × (hand.new.seat.id ≡ hand.old.seat.id) }
        ensures tied { IsTied self.now.table.shared.key.start.value hand.new.seat.me hand.new.spares hand.new.marked }
        ensures touched { IsTouched key hand.old.seat.me.0 hand.new.seat.me.0 result }
    {
        match self.touch_bucket(&mut hand.seat, key, bucket) {
            Spot::Placed(entry) => Touched::New(entry as u32),
            Spot::Seen(entry) => Touched::Old(entry as u32),
            Spot::Full => self.touch_chain(hand, bucket, key),
        }
    }
}
