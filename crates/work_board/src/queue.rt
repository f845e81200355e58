ghost use Rattle.std.specs.Prelude.{◌≡◌, ◌+◌, ◌-◌, ◌<◌, ◌≤◌, ◌∷◌, ◌++◌, [], length, None, Some, IsSome, is_some, true, if◌then◌else◌};
ghost use Rattle.fusion_core.specs.Boards.{IsReady, IsSuited};
ghost use Rattle.fusion_core.specs.Jobs.{draws, job_at, left, said};
ghost use Rattle.work_board.specs.Hands.{Rests, Working, HasClaimed, HasDone, HasTurned};
ghost use Rattle.work_board.specs.Rule.{start_in};
ghost use Rattle.work_board.specs.Steps.{held, working, past, finished, cut_left, cut_right, both, NoneTwice};

use crate::rule::{Both, Claim, Cut, Draw, Finish, InOneHand, Key, Seat, Told, Weigh};
use crate::turn::Turn;
use crate::view::View;
use crate::words::word_of;
use atomic_table::Table;
use fusion_core::{Done, Job, Slot, Tools};
use std::alloc::Global;
use std::marker::Brand;

/// The jobs of a board and its free numbers, each in their order, and the table that seats take steps on.
///
/// The words of the table are the counter of the jobs that were claimed, the cursor over the free numbers, and one for the
/// answer of each job, which is 0 until it is done. Its slots are the cells and then the docks.
#[derive(Drop)]
pub struct Queue {
    pub table: Table<Slot, View, Told, InOneHand, Global>,
    pub jobs: Vec<Job>,
    pub free: Vec<u32>,
    pub cell_count: usize,
    ghost jobs_are: { jobs.items ≡ table.shared.key.jobs.value.items },
    ghost free_is: { free.items ≡ table.shared.key.free.value.items },
    ghost cells_are: { cell_count ≡ length table.shared.key.cells.value.items },
    ghost few_jobs: { length table.shared.key.jobs.value.items < 4294967296 },
    ghost few_cells: { length table.shared.key.cells.value.items < 4294967296 },
    ghost words_are: { table.shared.table_id.words ≡ length table.shared.key.jobs.value.items + 2 },
}

// What a seat adds to the counter of claims: a seat that drew a number past the jobs adds nothing.
fn step_of(marked: bool) -> u64
    ensures { result ≡ (if marked then 0 else 1) }
{
    if marked { 0 } else { 1 }
}

impl Queue {
    // Claims the next job, with its cell and its dock. Past the jobs there is none.
    fn claim(&self, seat: &mut Seat, marked: bool) -> u64
        requires table { seat.old.table_id ≡ self.now.table.shared.table_id }
        requires rests { Rests (start_in self.now.table.shared.key) seat.old.me }
        requires marked { marked ≡ is_some seat.old.me.0.mark }
        ensures table { seat.new.table_id ≡ seat.old.table_id }
        ensures job { result < length seat.old.me.0.start.jobs → seat.new.me ≡ (working result None seat.old.me.0, held seat.old.me.0.start result None) }
        ensures suited { result < length seat.old.me.0.start.jobs → IsSuited seat.old.me.0.start (job_at seat.old.me.0.start result) }
        ensures end { length seat.old.me.0.start.jobs ≤ result → seat.new.me ≡ (past result seat.old.me.0, []) }
        ensures marked { IsSome seat.old.me.0.mark → length seat.old.me.0.start.jobs ≤ result }
    {
        let step = step_of(marked);
        self.table.shared.fetch_add::<Claim>(seat, 0, step)
    }

    /// Draws the next free cell for the job in hand.
    pub fn draw(&self, seat: &mut Seat, job: usize) -> u32
        requires table { seat.old.table_id ≡ self.now.table.shared.table_id }
        requires works { Working (start_in self.now.table.shared.key) seat.old.me job None }
        requires carries { seat.old.me.1 ≡ held (start_in self.now.table.shared.key) job None }
        requires draws { draws (job_at (start_in self.now.table.shared.key) job) ≡ true }
        ensures table { seat.new.table_id ≡ seat.old.table_id }
        ensures works { seat.new.me ≡ (working job (Some result) seat.old.me.0, held (start_in self.now.table.shared.key) job (Some result)) }
    {
        let at = self.table.shared.fetch_add::<Draw>(seat, 1, 1);
        self.free[at as usize]
    }

    /// Stores the answer of the job in hand, and its slots go home.
    pub fn finish(&self, seat: &mut Seat, job: usize, drawn: Option<u32>, done: Done)
        requires table { seat.old.table_id ≡ self.now.table.shared.table_id }
        requires inside { job < length (start_in self.now.table.shared.key).jobs }
        requires works { Working (start_in self.now.table.shared.key) seat.old.me job drawn }
        requires draws { draws (job_at (start_in self.now.table.shared.key) job) ≡ is_some drawn }
        requires carries { seat.old.me.1 ≡ left (start_in self.now.table.shared.key) (job_at (start_in self.now.table.shared.key) job) drawn }
        requires said { done ≡ said (start_in self.now.table.shared.key) (job_at (start_in self.now.table.shared.key) job) drawn }
        ensures table { seat.new.table_id ≡ seat.old.table_id }
        ensures rests { seat.new.me ≡ (finished job seat.old.me.0, []) }
        ensures once { NoneTwice seat.new.me.0.did }
    {
        let _ = drawn;
        let word = word_of(done);
        self.table.shared.store::<Finish>(seat, job + 2, word);
    }

    // Does the job that was claimed.
    fn do_job(&self, seat: &mut Seat, number: usize, job: Job, tools: &Tools<'_>)
        requires table { seat.old.table_id ≡ self.now.table.shared.table_id }
        requires claimed { HasClaimed (start_in self.now.table.shared.key) seat.old.me number job }
        requires fits { tools.now ≡ (start_in self.now.table.shared.key).work }
        ensures table { seat.new.table_id ≡ seat.old.table_id }
        ensures done { HasDone seat.old.me number seat.new.me }
    {
        match job {
            Job::Fresh { key } => self.do_fresh(seat, number, key, tools),
            Job::Stay { cell } => self.do_stay(seat, number, cell, tools),
            Job::Enter { dock } => self.do_enter(seat, number, dock, tools),
            Job::Leave { cell, dock } => self.do_leave(seat, number, cell, dock),
            Job::Check { cell } => self.do_check(seat, number, cell),
        }
    }

    /// Claims the next job and does it, or finds that none is left.
    pub fn turn(&self, seat: &mut Seat, marked: bool, tools: &Tools<'_>) -> Turn
        requires table { seat.old.table_id ≡ self.now.table.shared.table_id }
        requires ready { IsReady (start_in self.now.table.shared.key) }
        requires rests { Rests (start_in self.now.table.shared.key) seat.old.me }
        requires marked { marked ≡ is_some seat.old.me.0.mark }
        requires fits { tools.now ≡ (start_in self.now.table.shared.key).work }
        ensures table { seat.new.table_id ≡ seat.old.table_id }
        ensures turned { HasTurned seat.old.me seat.new.me result }
    {
        let number = self.claim(seat, marked);
        if number >= self.jobs.len() as u64 {
            return Turn::Empty { drawn: number };
        }
        let number = number as u32;
        self.do_job(seat, number as usize, self.jobs[number as usize], tools);
        Turn::Did(number)
    }

    // Cuts a seat in two, by a number that the call picks.
    fn cuts<K: Key>(&self, seat: &mut Seat, part: u32) -> Seat
        requires key { part ≡ K.key }
        requires table { seat.old.table_id ≡ self.now.table.shared.table_id }
        requires part { (1 ≤ part) × (part < seat.old.me.0.part) }
        requires rests { Rests (start_in self.now.table.shared.key) seat.old.me }
        ensures table { (seat.new.table_id ≡ seat.old.table_id) × (result.table_id ≡ seat.old.table_id) }
        ensures seat { seat.new.me ≡ (cut_left part seat.old.me.0, []) }
        ensures other { result.me ≡ (cut_right part seat.old.me.0, []) }
    {
        self.table.shared.split_seat::<Cut<K>>(seat)
    }

    /// A new seat with that part.
    pub fn split(&self, seat: &mut Seat, part: u32) -> Seat
        requires table { seat.old.table_id ≡ self.now.table.shared.table_id }
        requires part { (1 ≤ part) × (part < seat.old.me.0.part) }
        requires rests { Rests (start_in self.now.table.shared.key) seat.old.me }
        ensures table { (seat.new.table_id ≡ seat.old.table_id) × (result.table_id ≡ seat.old.table_id) }
        ensures seat { seat.new.me ≡ (cut_left part seat.old.me.0, []) }
        ensures other { result.me ≡ (cut_right part seat.old.me.0, []) }
    {
        self.cuts::<Brand>(seat, part)
    }

    /// Takes the other seat in.
    pub fn join(&self, seat: &mut Seat, other: Seat)
        requires table { (seat.old.table_id ≡ self.now.table.shared.table_id) × (other.table_id ≡ self.now.table.shared.table_id) }
        requires rests { Rests (start_in self.now.table.shared.key) seat.old.me × Rests (start_in self.now.table.shared.key) other.me }
        ensures table { seat.new.table_id ≡ seat.old.table_id }
        ensures seat { seat.new.me ≡ (both seat.old.me.0 other.me.0, []) }
        ensures part { seat.old.me.0.part + other.me.0.part ≤ 64 }
        ensures once { NoneTwice (seat.old.me.0.did ++ other.me.0.did) }
    {
        self.table.shared.join_seat::<Both>(seat, other);
        self.table.shared.load::<Weigh>(seat, 0);
    }
}
