// The steps of the machine.
ghost use Rattle.std.specs.Prelude.{◌≡◌, ◌≢◌, ℕ, ◌<◌, false, Some, is_ok, IfSome, MatchOption, OnErr, OnOk, length, slice_get, slice_set, vec_len};
ghost use Rattle.fusion_core.specs.declared.board.done.Done.TheVariants as done;
ghost use Rattle.fusion_core.specs.declared.board.event.Event.TheVariants.{Claim, Draw, Finish};
ghost use Rattle.fusion_core.specs.declared.board.slot.Slot.TheVariants.{Away};
ghost use Rattle.fusion_core.specs.Jobs.{Start, departed, draws as draws_of_job, drawn_number, entered, freshened, job_at, left, said, slot_at, stayed, summary_at};
ghost use Rattle.fusion_core.specs.BoardStates.{allowed, after_event, has_all as has_all_of, put, IsWhole};
ghost use Rattle.fusion_core.specs.Machines.{CanDo, IsTaken, MayDraw, MayFinish};

use crate::NotAllowed;
use crate::board::doing::{enter, freshen, leave, look, stay};
use crate::board::{Core, Done, Event, Hand, Job, Slot, Tools, Work};
use std::mem::replace;
use voxel_block::BlockKey;

// Whether a job draws a free cell.
fn draws(job: Job) -> bool
    ensures { result ≡ draws_of_job job }
{
    matches!(job, Job::Fresh { .. } | Job::Enter { .. })
}

// Whether a job has the cell that it draws, and no cell where it draws none.
fn has_all(job: Job, drawn: Option<u32>) -> bool
    ensures { (st : Start) (j : ℕ) → job ≡ job_at st j → result ≡ has_all_of st j drawn }
{
    match drawn {
        None => !draws(job),
        Some(_) => draws(job),
    }
}

// Takes a slot out of the row.
fn take_slot(slots: &mut Vec<Slot>, k: usize) -> Slot
    requires { k < vec_len slots.old }
    ensures value { result ≡ slot_at slots.old.items k }
    ensures items { slots.new.items ≡ slice_set slots.old.items k Away }
    ensures len { vec_len slots.new ≡ vec_len slots.old }
{
    replace(&mut slots[k], Slot::Away)
}

// Puts a slot into the row.
fn put_slot(slots: &mut Vec<Slot>, k: usize, slot: Slot)
    requires { k < vec_len slots.old }
    ensures items { slots.new.items ≡ slice_set slots.old.items k slot }
    ensures len { vec_len slots.new ≡ vec_len slots.old }
{
    slots[k] = slot;
}

// The number of the cell that was drawn, and 0 where none was.
fn number_of(drawn: Option<u32>) -> u32
    ensures { result ≡ drawn_number drawn }
{
    match drawn {
        Some(cell) => cell,
        None => 0,
    }
}

// Makes a free cell the key's.
fn do_fresh(slots: &mut Vec<Slot>, key: BlockKey, cell: u32, tools: &Tools<'_>) -> Done
    requires { cell < vec_len slots.old }
    ensures slots { slots.new.items ≡ slice_set slots.old.items cell (freshened tools.now key (slot_at slots.old.items cell)) }
    ensures len { vec_len slots.new ≡ vec_len slots.old }
    ensures said { result ≡ done.Cell cell }
{
    let slot = take_slot(slots, cell as usize);
    let slot = freshen(slot, key, tools);
    put_slot(slots, cell as usize, slot);
    Done::Cell(cell)
}

// Updates the block of a cell.
fn do_stay(slots: &mut Vec<Slot>, cell: u32, tools: &Tools<'_>) -> Done
    requires { cell < vec_len slots.old }
    ensures slots { slots.new.items ≡ slice_set slots.old.items cell (stayed tools.now (slot_at slots.old.items cell)) }
    ensures len { vec_len slots.new ≡ vec_len slots.old }
    ensures said { result ≡ done.Cell cell }
{
    let slot = take_slot(slots, cell as usize);
    let slot = stay(slot, tools);
    put_slot(slots, cell as usize, slot);
    Done::Cell(cell)
}

// Moves the block of a dock into a free cell.
fn do_enter(slots: &mut Vec<Slot>, cell: u32, dock: usize, tools: &Tools<'_>) -> Done
    requires inside { (cell < vec_len slots.old) × (dock < vec_len slots.old) }
    requires apart { dock ≢ cell }
    requires taken { IsTaken tools.now (slot_at slots.old.items dock) }
    ensures slots { slots.new.items ≡ slice_set (slice_set slots.old.items cell (entered tools.now (slot_at slots.old.items cell) (slot_at slots.old.items dock)).0) dock (entered tools.now (slot_at slots.old.items cell) (slot_at slots.old.items dock)).1 }
    ensures len { vec_len slots.new ≡ vec_len slots.old }
    ensures said { result ≡ done.Cell cell }
{
    let cell_slot = take_slot(slots, cell as usize);
    let dock_slot = take_slot(slots, dock);
    let (cell_slot, dock_slot) = enter(cell_slot, dock_slot, tools);
    put_slot(slots, cell as usize, cell_slot);
    put_slot(slots, dock, dock_slot);
    Done::Cell(cell)
}

// Moves the block of a cell into a dock.
fn do_leave(slots: &mut Vec<Slot>, cell: u32, dock: usize) -> Done
    requires inside { (cell < vec_len slots.old) × (dock < vec_len slots.old) }
    requires apart { cell ≢ dock }
    ensures slots { slots.new.items ≡ slice_set (slice_set slots.old.items dock (departed (slot_at slots.old.items cell) (slot_at slots.old.items dock)).1) cell (departed (slot_at slots.old.items cell) (slot_at slots.old.items dock)).0 }
    ensures len { vec_len slots.new ≡ vec_len slots.old }
    ensures said { result ≡ done.Freed cell }
{
    let dock_slot = take_slot(slots, dock);
    let cell_slot = take_slot(slots, cell as usize);
    let (cell_slot, dock_slot) = leave(cell_slot, dock_slot);
    put_slot(slots, dock, dock_slot);
    put_slot(slots, cell as usize, cell_slot);
    Done::Freed(cell)
}

// Looks at the block of a cell.
fn do_check(slots: &Vec<Slot>, cell: u32) -> Done
    requires { cell < vec_len slots.now }
    ensures { result ≡ done.Looked (summary_at (slot_at slots.now.items cell)) }
{
    Done::Looked(look(&slots[cell as usize]))
}

// Does a job on its slots.
fn do_job(
    slots: &mut Vec<Slot>,
    cells: usize,
    job: Job,
    drawn: Option<u32>,
    tools: &Tools<'_>,
) -> Done
    requires can { (st : Start) × CanDo st tools.now cells slots.old.items job drawn }
    requires few { cells < 4294967296 }
    ensures done { (st : Start) → CanDo st tools.now cells slots.old.items job drawn → (slots.new.items ≡ put slots.old.items (left st job drawn)) × (result ≡ said st job drawn) }
    ensures len { vec_len slots.new ≡ vec_len slots.old }
{
    match job {
        Job::Fresh { key } => do_fresh(slots, key, number_of(drawn), tools),
        Job::Stay { cell } => do_stay(slots, cell, tools),
        Job::Enter { dock } => do_enter(slots, number_of(drawn), cells + dock as usize, tools),
        Job::Leave { cell, dock } => do_leave(slots, cell, cells + dock as usize),
        Job::Check { cell } => do_check(slots, cell),
    }
}

impl Core {
    // What a worker has in hand. None where there is no such worker.
    fn hand(&self, w: u32) -> Option<Hand>
        ensures hand { result ≡ slice_get self.now.hands w }
        ensures whole { IsWhole self.now }
    {
        if (w as usize) < self.hands.len() {
            Some(self.hands[w as usize])
        } else {
            None
        }
    }

    // The job of a number.
    fn job(&self, j: u32) -> Job
        requires { j < length self.now.start.jobs }
        ensures { result ≡ job_at self.now.start j }
    {
        self.jobs[j as usize]
    }

    // The number of the next free cell.
    fn free_cell(&self) -> u32
        requires { self.now.cursor < length self.now.start.free }
        ensures { slice_get self.now.start.free self.now.cursor ≡ Some result }
    {
        self.free[self.cursor]
    }

    // Whether a worker may claim the next job.
    fn may_claim(&self, w: u32) -> bool
        ensures { result ≡ allowed self.now (Claim w) }
    {
        matches!(self.hand(w), Some(Hand::Idle)) && self.next < self.jobs.len()
    }

    // The job of a worker that may draw a cell for it.
    fn job_to_draw(&self, w: u32) -> Option<u32>
        ensures may { MatchOption result (allowed self.now (Draw w) ≡ false) (MayDraw self.now w) }
        ensures room { IfSome result (λ _. self.now.cursor < length self.now.start.free) }
    {
        let Some(Hand::Works(j, None)) = self.hand(w) else {
            return None;
        };
        if draws(self.job(j)) { Some(j) } else { None }
    }

    // The job of a worker that may finish it, and the cell that was drawn for it.
    fn job_to_finish(&self, w: u32) -> Option<(u32, Option<u32>)>
        ensures may { MatchOption result (allowed self.now (Finish w) ≡ false) (λ p. MayFinish self.now w p.0 p.1) }
        ensures inside { IfSome result (λ p. p.0 < length self.now.start.jobs) }
    {
        let Some(Hand::Works(j, drawn)) = self.hand(w) else {
            return None;
        };
        if has_all(self.job(j), drawn) {
            Some((j, drawn))
        } else {
            None
        }
    }

    // The worker claims the next job.
    fn claim(&mut self, w: u32) -> Result<(), NotAllowed>
        ensures allowed { is_ok result ≡ allowed self.old (Claim w) }
        ensures ok { OnOk result (self.new ≡ after_event self.old (Claim w)) }
        ensures err { OnErr result (self.new ≡ self.old) }
    {
        if !self.may_claim(w) {
            return Err(NotAllowed);
        }
        self.hands[w as usize] = Hand::Works(self.next as u32, None);
        self.next += 1;
        Ok(())
    }

    // The worker draws the next free cell.
    fn draw(&mut self, w: u32) -> Result<(), NotAllowed>
        ensures allowed { is_ok result ≡ allowed self.old (Draw w) }
        ensures ok { OnOk result (self.new ≡ after_event self.old (Draw w)) }
        ensures err { OnErr result (self.new ≡ self.old) }
    {
        let Some(j) = self.job_to_draw(w) else {
            return Err(NotAllowed);
        };
        let cell = self.free_cell();
        self.hands[w as usize] = Hand::Works(j, Some(cell));
        self.cursor += 1;
        Ok(())
    }

    // The worker does its job, and all that it has goes home.
    fn finish(&mut self, w: u32, work: &Work) -> Result<(), NotAllowed>
        requires fits { work.now ≡ self.old.start.work }
        ensures allowed { is_ok result ≡ allowed self.old (Finish w) }
        ensures ok { OnOk result (self.new ≡ after_event self.old (Finish w)) }
        ensures err { OnErr result (self.new ≡ self.old) }
    {
        let Some((j, drawn)) = self.job_to_finish(w) else {
            return Err(NotAllowed);
        };
        let job = self.job(j);
        let tools = Tools::of(work);
        let said = do_job(&mut self.slots, self.cell_count, job, drawn, &tools);
        self.done[j as usize] = Some(said);
        self.hands[w as usize] = Hand::Idle;
        Ok(())
    }

    /// Takes one event, by the work that the machine was made for.
    ///
    /// # Errors
    ///
    /// The event is not allowed now: there is no such worker, it does not have in hand what the event needs, or no job is
    /// left to be claimed. Nothing changed then.
    pub fn step(&mut self, event: Event, work: &Work) -> Result<(), NotAllowed>
        requires fits { work.now ≡ self.old.start.work }
        ensures allowed { is_ok result ≡ allowed self.old event }
        ensures ok { OnOk result (self.new ≡ after_event self.old event) }
        ensures err { OnErr result (self.new ≡ self.old) }
        ensures start { self.new.start ≡ self.old.start }
    {
        match event {
            Event::Claim(w) => self.claim(w),
            Event::Draw(w) => self.draw(w),
            Event::Finish(w) => self.finish(w, work),
        }
    }
}
