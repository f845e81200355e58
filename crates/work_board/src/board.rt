ghost use Rattle.std.specs.Prelude.{◌≡◌, ◌≤◌, ◌<◌, ℕ, List, ◌++◌, drop, length, vec_len, IfOk, IfErr, IsSome, true, false};
ghost use Rattle.std.specs.Vec.{vec_capacity};
ghost use Rattle.fusion_core.specs.BoardEnds.{Ends};
ghost use Rattle.fusion_core.specs.Boards.{IsReady};
ghost use Rattle.fusion_core.specs.Machines.{start_of};
ghost use Rattle.work_board.specs.Hands.{mark_after};

use crate::board_end::BoardEnd;
use crate::no_board::NoBoard;
use crate::queue::Queue;
use crate::rows::out_of_row;
use crate::rule::Told;
use crate::seat::BoardSeat;
use crate::taking::{drop_drawn, take_answers, take_slots};
use crate::turn::Turn;
use atomic_table::{Refused, Table};
use block_heap::Cell;
use fusion_core::moving::move_into_row;
use fusion_core::{Dock, Done, Job, Slot, Tools, Work};
use std::alloc::Global;
use std::marker::Model;
use std::snapshot::Snapshot;

/// Jobs on cells and docks, which several seats claim one after another, with no lock (this project's own).
///
/// A turn claims one job with the cell and the dock that it names, draws a free cell where the job wants one, does the job,
/// and gives all back with its answer: three operations on atomic words, and the job's own work. A block is moved, and never
/// copied. A board is made with its first seat; each further one is split off from a seat. The parts of all seats add up to
/// the number of seats that the board was made for.
#[derive(Drop)]
pub struct Board {
    queue: Queue,
    /// The emptied lists, whose room takes the cells and the docks back.
    cells: Vec<Cell>,
    docks: Vec<Dock>,
    /// Room for the answer of each job.
    done: Vec<Done>,
}

impl Model for Board {
    ghost use Rattle.work_board.specs.Seats.{SharedBoard, board_of, IsBoard};

    ghost Value = { SharedBoard };

    ghost view = { board_of };

    ghost invariant = { IsBoard };
}

impl Board {
    ghost use Rattle.work_board.specs.Closes.{HasEachOnce, end_of};
    ghost use Rattle.work_board.specs.Rule.{first_view};
    ghost use Rattle.work_board.specs.Seats.{Belongs, IsTurn};
    ghost use Rattle.work_board.specs.Steps.{cut_left, cut_right, both, NoneTwice};

    /// A board of these jobs on these cells and docks for 1 to 64 seats, and its first seat, whose part is all of them.
    /// `free` has the numbers of free cells, in the order in which they are drawn, and room for as many numbers as there
    /// are cells. The board has to be ready for the work. All memory of the board is taken here.
    ///
    /// # Errors
    ///
    /// Out of memory. What the board was to be made of comes back, and `free` with its room.
    pub fn make(
        alloc: Global,
        jobs: Vec<Job>,
        mut cells: Vec<Cell>,
        mut docks: Vec<Dock>,
        free: Vec<u32>,
        work: &Work,
        seats: u32,
    ) -> Result<(Board, BoardSeat), NoBoard>
        requires ready { IsReady (start_of jobs.items cells.items docks.items free.items work.now) }
        requires room { vec_len cells ≤ vec_capacity free }
        requires seats { (1 ≤ seats) × (seats ≤ 64) }
        ensures board { IfOk result (λ r. (r.0.start ≡ start_of jobs.items cells.items docks.items free.items work.now) × (r.0.seats ≡ seats)) }
        ensures seat { IfOk result (λ r. Belongs r.1 r.0 × (r.1.knows ≡ first_view (start_of jobs.items cells.items docks.items free.items work.now) seats)) }
        ensures refused { IfErr result (λ n. (n.jobs ≡ jobs) × (n.cells.items ≡ cells.items) × (n.docks.items ≡ docks.items) × (n.free ≡ free)) }
    {
        let told = Told {
            jobs: Snapshot::of(&jobs),
            cells: Snapshot::of(&cells),
            docks: Snapshot::of(&docks),
            free: Snapshot::of(&free),
            work: Snapshot::of(work),
            seats,
        };
        let cell_count = cells.len();
        let Ok(words) = vec![in alloc; 0; jobs.len() + 2] else {
            return Err(NoBoard {
                jobs,
                cells,
                docks,
                free,
            });
        };
        let Ok(done) = Vec::<Done>::with_capacity(alloc, jobs.len()) else {
            return Err(NoBoard {
                jobs,
                cells,
                docks,
                free,
            });
        };
        let Ok(mut slots) = Vec::<Slot>::with_capacity(alloc, cell_count + docks.len()) else {
            return Err(NoBoard {
                jobs,
                cells,
                docks,
                free,
            });
        };
        move_into_row(&mut cells, &mut docks, &mut slots);
        match Table::new(alloc, words.as_slice(), slots, &told) {
            Ok((table, seat)) => {
                let queue = Queue {
                    table,
                    jobs,
                    free,
                    cell_count,
                };
                Ok((
                    Board {
                        queue,
                        cells,
                        docks,
                        done,
                    },
                    BoardSeat {
                        seat,
                        part: seats,
                        marked: false,
                    },
                ))
            }
            Err(Refused { slots }) => {
                out_of_row(slots, &mut cells, &mut docks);
                Err(NoBoard {
                    jobs,
                    cells,
                    docks,
                    free,
                })
            }
        }
    }

    /// Claims the next job and does it whole, or finds that none is left.
    ///
    /// The answer `Empty` comes only where the claim number that was drawn in this turn is at least the number of jobs. It
    /// is the seat's mark from then on, and a seat with a mark does no further job. A turn waits for nobody, and takes no
    /// memory.
    pub fn turn(&self, seat: &mut BoardSeat, work: &Work) -> Turn
        requires belongs { Belongs seat.old self.now }
        requires fits { work.now ≡ self.now.start.work }
        ensures belongs { Belongs seat.new self.now }
        ensures part { seat.new.knows.part ≡ seat.old.knows.part }
        ensures turned { IsTurn seat.old.knows seat.new.knows result }
        ensures once { NoneTwice seat.new.knows.did }
    {
        self.turn_with(seat, &self.tools(work))
    }

    /// The same turn, by tools that are made once for any number of turns.
    pub fn turn_with(&self, seat: &mut BoardSeat, tools: &Tools<'_>) -> Turn
        requires belongs { Belongs seat.old self.now }
        requires fits { tools.now ≡ self.now.start.work }
        ensures belongs { Belongs seat.new self.now }
        ensures part { seat.new.knows.part ≡ seat.old.knows.part }
        ensures turned { IsTurn seat.old.knows seat.new.knows result }
        ensures once { NoneTwice seat.new.knows.did }
    {
        let turn = self.queue.turn(&mut seat.seat, seat.marked, tools);
        seat.marked = is_marked(seat.marked, turn);
        turn
    }

    /// A new seat with that part, an empty list of jobs, and the mark of the old one. The old one keeps the rest, and the
    /// jobs that it did. Takes no memory.
    pub fn split(&self, seat: &mut BoardSeat, part: u32) -> BoardSeat
        requires belongs { Belongs seat.old self.now }
        requires part { (1 ≤ part) × (part < seat.old.knows.part) }
        ensures belongs { Belongs seat.new self.now × Belongs result self.now }
        ensures seat { seat.new.knows ≡ cut_left part seat.old.knows }
        ensures other { result.knows ≡ cut_right part seat.old.knows }
    {
        let other = self.queue.split(&mut seat.seat, part);
        seat.part -= part;
        BoardSeat {
            seat: other,
            part,
            marked: seat.marked,
        }
    }

    /// Takes the other seat in, with its part, its mark and the jobs that it did. Takes no memory.
    pub fn join(&self, seat: &mut BoardSeat, other: BoardSeat)
        requires belongs { Belongs seat.old self.now × Belongs other self.now }
        ensures belongs { Belongs seat.new self.now }
        ensures seat { seat.new.knows ≡ both seat.old.knows other.knows }
        ensures once { NoneTwice seat.new.knows.did }
    {
        let BoardSeat {
            seat: taken,
            part,
            marked,
        } = other;
        self.queue.join(&mut seat.seat, taken);
        seat.part += part;
        seat.marked = any(seat.marked, marked);
    }

    // The tools of the board's work.
    fn tools<'a>(&self, work: &'a Work) -> Tools<'a>
        requires { work.now ≡ self.now.start.work }
        ensures { result ≡ work.now }
    {
        // The board is ready for its work.
        let _ = &self.done;
        Tools::of(work)
    }

    // Takes turns until no job is left.
    fn finish_turns(&self, seat: &mut BoardSeat, tools: &Tools<'_>)
        requires belongs { Belongs seat.old self.now }
        requires fits { tools.now ≡ self.now.start.work }
        ensures belongs { Belongs seat.new self.now }
        ensures part { seat.new.knows.part ≡ seat.old.knows.part }
        ensures marked { IsSome seat.new.knows.mark }
        ensures did { seat.new.knows.did ≡ seat.old.knows.did ++ drop (length seat.old.knows.did) seat.new.knows.did }
        ensures still { IsSome seat.old.knows.mark → seat.new.knows.did ≡ seat.old.knows.did }
    {
        for i in 0..self.queue.jobs.len() + 1 {
            match self.turn_with(seat, tools) {
                Turn::Empty { .. } => return,
                Turn::Did(_) => {}
            }
        }
        unreachable!()
    }

    /// Does the jobs that are left, and gives back what the board was made of, as its jobs left it, with their answers. It
    /// waits for nobody, and takes no memory.
    ///
    /// The seat's list, with the jobs that are done here after it, has each job once. A seat that has a mark has each job
    /// in its list already.
    pub fn close(self, mut seat: BoardSeat, work: &Work) -> BoardEnd
        requires belongs { Belongs seat self }
        requires whole { seat.knows.part ≡ self.seats }
        requires fits { work.now ≡ self.start.work }
        ensures ends { Ends self.start (end_of result) }
        ensures once { (more : List ℕ) × HasEachOnce self.start (seat.knows.did ++ more) }
        ensures marked { IsSome seat.knows.mark → HasEachOnce self.start seat.knows.did }
        ensures room { length self.start.cells ≤ vec_capacity result.free }
    {
        self.finish_turns(&mut seat, &self.tools(work));
        let BoardSeat { seat, .. } = seat;
        let Board {
            queue,
            mut cells,
            mut docks,
            mut done,
        } = self;
        let Queue {
            table,
            jobs,
            mut free,
            ..
        } = queue;
        let slot_count = table.slot_count();
        let mut closed = table.close_with(seat);
        take_slots(&mut closed, slot_count, &mut cells, &mut docks);
        let cursor = closed.word(1) as usize;
        drop_drawn(&mut free, cursor);
        take_answers(&closed, jobs.len(), &mut free, &mut done);
        closed.free();
        BoardEnd {
            cells,
            docks,
            free,
            done,
        }
    }
}

// Whether a seat has a mark after a turn.
fn is_marked(marked: bool, turn: Turn) -> bool
    ensures { result ≡ mark_after marked turn }
{
    match turn {
        Turn::Did(_) => marked,
        Turn::Empty { .. } => true,
    }
}

// One of the two holds.
fn any(a: bool, b: bool) -> bool
    ensures yes { a ≡ true → result ≡ true }
    ensures no { a ≡ false → result ≡ b }
{
    a || b
}
