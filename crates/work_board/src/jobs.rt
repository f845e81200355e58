// The work of a job that was claimed, on the slots that its seat has.
ghost use Rattle.std.specs.Prelude.{◌≡◌, ◌+◌, length, [], ◌∷◌};
ghost use Rattle.fusion_core.specs.declared.board.job.Job.TheVariants.{Fresh, Stay, Enter, Leave, Check};
ghost use Rattle.fusion_core.specs.declared.board.slot.Slot.{Slot as SlotValue};
ghost use Rattle.fusion_core.specs.declared.board.slot.Slot.TheVariants.{Away};
ghost use Rattle.fusion_core.specs.Jobs.{dock_slot};
ghost use Rattle.work_board.specs.Hands.{HasClaimed, HasDone};
ghost use Rattle.work_board.specs.Rule.{start_in};

use crate::queue::Queue;
use crate::rule::Seat;
use fusion_core::doing::{enter, freshen, leave, look, stay};
use fusion_core::{Done, Slot, Tools};
use voxel_block::BlockKey;

impl Queue {
    // Takes out the one slot that the seat holds.
    fn take_one(&self, seat: &mut Seat, a: usize) -> Slot
        requires table { seat.old.table_id ≡ self.now.table.shared.table_id }
        requires carries { (x : SlotValue) × (seat.old.me.1 ≡ (a, x) ∷ []) }
        ensures table { seat.new.table_id ≡ seat.old.table_id }
        ensures value { seat.old.me.1 ≡ (a, result) ∷ [] }
        ensures after { seat.new.me ≡ (seat.old.me.0, (a, Away) ∷ []) }
    {
        self.table.shared.exchange(seat, a, Slot::Away)
    }

    // Puts a slot in the place of the one that the seat holds.
    fn put_one(&self, seat: &mut Seat, a: usize, slot: Slot)
        requires table { seat.old.table_id ≡ self.now.table.shared.table_id }
        requires carries { seat.old.me.1 ≡ (a, Away) ∷ [] }
        ensures table { seat.new.table_id ≡ seat.old.table_id }
        ensures after { seat.new.me ≡ (seat.old.me.0, (a, slot) ∷ []) }
    {
        self.table.shared.exchange(seat, a, slot);
    }

    // Takes out the two slots that the seat holds.
    fn take_two(&self, seat: &mut Seat, a: usize, b: usize) -> (Slot, Slot)
        requires table { seat.old.table_id ≡ self.now.table.shared.table_id }
        requires carries { (x : SlotValue) × (y : SlotValue) × (seat.old.me.1 ≡ (a, x) ∷ (b, y) ∷ []) }
        ensures table { seat.new.table_id ≡ seat.old.table_id }
        ensures value { seat.old.me.1 ≡ (a, result.0) ∷ (b, result.1) ∷ [] }
        ensures after { seat.new.me ≡ (seat.old.me.0, (b, Away) ∷ (a, Away) ∷ []) }
    {
        let first = self.table.shared.exchange(seat, a, Slot::Away);
        seat.turn();
        let second = self.table.shared.exchange(seat, b, Slot::Away);
        (first, second)
    }

    // Puts two slots in the places of the two that the seat holds.
    fn put_two(&self, seat: &mut Seat, a: usize, b: usize, first: Slot, second: Slot)
        requires table { seat.old.table_id ≡ self.now.table.shared.table_id }
        requires carries { seat.old.me.1 ≡ (b, Away) ∷ (a, Away) ∷ [] }
        ensures table { seat.new.table_id ≡ seat.old.table_id }
        ensures after { seat.new.me ≡ (seat.old.me.0, (a, first) ∷ (b, second) ∷ []) }
    {
        self.table.shared.exchange(seat, b, second);
        seat.turn();
        self.table.shared.exchange(seat, a, first);
    }

    // Updates the block of a cell.
    pub fn do_stay(&self, seat: &mut Seat, job: usize, cell: u32, tools: &Tools<'_>)
        requires table { seat.old.table_id ≡ self.now.table.shared.table_id }
        requires claimed { HasClaimed (start_in self.now.table.shared.key) seat.old.me job (Stay cell) }
        requires fits { tools.now ≡ (start_in self.now.table.shared.key).work }
        ensures table { seat.new.table_id ≡ seat.old.table_id }
        ensures done { HasDone seat.old.me job seat.new.me }
    {
        let slot = self.take_one(seat, cell as usize);
        let slot = stay(slot, tools);
        self.put_one(seat, cell as usize, slot);
        self.finish(seat, job, None, Done::Cell(cell));
    }

    // Looks at the block of a cell.
    pub fn do_check(&self, seat: &mut Seat, job: usize, cell: u32)
        requires table { seat.old.table_id ≡ self.now.table.shared.table_id }
        requires claimed { HasClaimed (start_in self.now.table.shared.key) seat.old.me job (Check cell) }
        ensures table { seat.new.table_id ≡ seat.old.table_id }
        ensures done { HasDone seat.old.me job seat.new.me }
    {
        let slot = self.take_one(seat, cell as usize);
        let summary = look(&slot);
        self.put_one(seat, cell as usize, slot);
        self.finish(seat, job, None, Done::Looked(summary));
    }

    // Moves the block of a cell into a dock.
    pub fn do_leave(&self, seat: &mut Seat, job: usize, cell: u32, dock: u32)
        requires table { seat.old.table_id ≡ self.now.table.shared.table_id }
        requires claimed { HasClaimed (start_in self.now.table.shared.key) seat.old.me job (Leave cell dock) }
        ensures table { seat.new.table_id ≡ seat.old.table_id }
        ensures done { HasDone seat.old.me job seat.new.me }
    {
        let place = self.dock_slot(dock);
        let (dock_slot, cell_slot) = self.take_two(seat, place, cell as usize);
        let (cell_slot, dock_slot) = leave(cell_slot, dock_slot);
        self.put_two(seat, place, cell as usize, dock_slot, cell_slot);
        self.finish(seat, job, None, Done::Freed(cell));
    }

    // Gives a free cell to a key.
    pub fn do_fresh(&self, seat: &mut Seat, job: usize, key: BlockKey, tools: &Tools<'_>)
        requires table { seat.old.table_id ≡ self.now.table.shared.table_id }
        requires claimed { HasClaimed (start_in self.now.table.shared.key) seat.old.me job (Fresh key) }
        requires fits { tools.now ≡ (start_in self.now.table.shared.key).work }
        ensures table { seat.new.table_id ≡ seat.old.table_id }
        ensures done { HasDone seat.old.me job seat.new.me }
    {
        let cell = self.draw(seat, job);
        let slot = self.take_one(seat, cell as usize);
        let slot = freshen(slot, key, tools);
        self.put_one(seat, cell as usize, slot);
        self.finish(seat, job, Some(cell), Done::Cell(cell));
    }

    // Moves the block of a dock into a free cell.
    pub fn do_enter(&self, seat: &mut Seat, job: usize, dock: u32, tools: &Tools<'_>)
        requires table { seat.old.table_id ≡ self.now.table.shared.table_id }
        requires claimed { HasClaimed (start_in self.now.table.shared.key) seat.old.me job (Enter dock) }
        requires fits { tools.now ≡ (start_in self.now.table.shared.key).work }
        ensures table { seat.new.table_id ≡ seat.old.table_id }
        ensures done { HasDone seat.old.me job seat.new.me }
    {
        let place = self.dock_slot(dock);
        let cell = self.draw(seat, job);
        let (cell_slot, dock_slot) = self.take_two(seat, cell as usize, place);
        let (cell_slot, dock_slot) = enter(cell_slot, dock_slot, tools);
        self.put_two(seat, cell as usize, place, cell_slot, dock_slot);
        self.finish(seat, job, Some(cell), Done::Cell(cell));
    }

    // The number of a dock's slot, which follows those of the cells.
    fn dock_slot(&self, dock: u32) -> usize
        ensures { result ≡ dock_slot (start_in self.now.table.shared.key) dock }
    {
        self.cell_count + dock as usize
    }
}
