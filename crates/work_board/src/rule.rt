ghost use Rattle.std.specs.Prelude.{ℕ};
ghost use Rattle.work_board.specs.Rule.{Shows, start_in, first_view};
ghost use Rattle.work_board.specs.Steps.{claiming, drawing, finishing, weighed, cut_left, cut_right, both, gone};

use crate::view::View;
use atomic_table::{Join, Play, Split, TableRule};
use block_heap::Cell;
use fusion_core::{Dock, Job, Slot, Work};
use std::marker::{Brand, PhantomData};
use std::snapshot::Snapshot;

pub type Seat = atomic_table::Seat<Slot, View>;

/// What the table is given once: the board as it was made, and the number of seats.
#[derive(Drop)]
pub struct Told {
    pub jobs: Snapshot<Vec<Job>>,
    pub cells: Snapshot<Vec<Cell>>,
    pub docks: Snapshot<Vec<Dock>>,
    pub free: Snapshot<Vec<u32>>,
    pub work: Snapshot<Work>,
    pub seats: u32,
}

/// The rule of the table: it shows a state of the machine of a board, which is whole.
pub struct InOneHand;

impl TableRule<Slot, View, Told> for InOneHand {
    ghost holds = { λ key. Shows (start_in key) key.seats };

    ghost first = { λ key. first_view (start_in key) key.seats };
}

/// A fetch and add of the counter of claims. Its event is Claim where a job is left, and else none.
pub struct Claim;

impl Play<Slot, View> for Claim {
    ghost then = { claiming };
}

/// A fetch and add of the cursor over the free numbers. Its event is Draw.
pub struct Draw;

impl Play<Slot, View> for Draw {
    ghost then = { drawing };
}

/// A store of a job's answer. Its event is Finish.
pub struct Finish;

impl Play<Slot, View> for Finish {
    ghost then = { finishing };
}

/// A load of word 0, from which a seat learns the bound of its part, and that its list has no job twice.
pub struct Weigh;

impl Play<Slot, View> for Weigh {
    ghost then = { weighed };
}

/// A number that a call picks.
pub trait Key {
    ghost key: { ℕ };
}

impl Key for Brand {
    ghost key = { 0 };
}

/// A seat is cut in two.
pub struct Cut<K> {
    marker: PhantomData<K>,
}

impl<K: Key> Split<View> for Cut<K> {
    ghost left = { cut_left K.key };

    ghost right = { cut_right K.key };
}

/// Two seats become one.
pub struct Both;

impl Join<View> for Both {
    ghost both = { both };

    ghost spent = { gone };
}
