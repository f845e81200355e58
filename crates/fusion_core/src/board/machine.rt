ghost use Rattle.std.specs.Prelude.{◌≡◌, IfOk};
ghost use Rattle.fusion_core.specs.Boards.{IsReady};
ghost use Rattle.fusion_core.specs.BoardStates.{opening};
ghost use Rattle.fusion_core.specs.Machines.{start_of};

use crate::board::moving::move_into_row;
use crate::board::{Dock, Done, Hand, Job, Slot, Work};
use block_heap::Cell;
use std::alloc::Global;
use std::marker::Model;
use std::snapshot::Snapshot;
use voxel_block::NoMemory;

/// A board and its workers as one machine, which takes one event after another.
#[derive(Drop)]
pub struct Core {
    pub(crate) jobs: Vec<Job>,
    pub(crate) slots: Vec<Slot>,
    pub(crate) cell_count: usize,
    pub(crate) free: Vec<u32>,
    pub(crate) next: usize,
    pub(crate) cursor: usize,
    pub(crate) hands: Vec<Hand>,
    pub(crate) done: Vec<Option<Done>>,
    cells: Snapshot<Vec<Cell>>,
    docks: Snapshot<Vec<Dock>>,
    work: Snapshot<Work>,
}

impl Model for Core {
    ghost use Rattle.fusion_core.specs.BoardStates.{BoardState};
    ghost use Rattle.fusion_core.specs.CoreView.{core_view, IsCore};

    ghost Value = { BoardState };

    ghost view = { core_view };

    ghost invariant = { IsCore };
}

impl Core {
    /// The machine of these jobs, cells and docks, with this many workers. `free` has the numbers of free cells, in the
    /// order in which they are drawn. The board has to be ready for the work.
    ///
    /// # Errors
    ///
    /// Out of memory. The jobs, the cells and the docks are dropped then.
    pub fn make(
        alloc: Global,
        jobs: Vec<Job>,
        mut cells: Vec<Cell>,
        mut docks: Vec<Dock>,
        free: Vec<u32>,
        work: &Work,
        workers: u32,
    ) -> Result<Core, NoMemory>
        requires { IsReady (start_of jobs.items cells.items docks.items free.items work.now) }
        ensures { IfOk result (λ m. m ≡ opening (start_of jobs.items cells.items docks.items free.items work.now) workers) }
    {
        let cells_then = Snapshot::of(&cells);
        let docks_then = Snapshot::of(&docks);
        let cell_count = cells.len();
        let mut slots = Vec::with_capacity(alloc, cell_count + docks.len())?;
        let hands = vec![in alloc; Hand::Idle; workers as usize]?;
        let done = vec![in alloc; None; jobs.len()]?;
        move_into_row(&mut cells, &mut docks, &mut slots);
        Ok(Core {
            jobs,
            slots,
            cell_count,
            free,
            next: 0,
            cursor: 0,
            hands,
            done,
            cells: cells_then,
            docks: docks_then,
            work: Snapshot::of(work),
        })
    }

    /// The cells and then the docks. What a worker has in hand is as it was when the machine was made.
    pub fn slots(&self) -> &[Slot]
        ensures { result.now ≡ self.now.slots }
    {
        self.slots.as_slice()
    }

    /// The answer of each job by its number, none where the job is not done.
    pub fn answers(&self) -> &[Option<Done>]
        ensures { result.now ≡ self.now.done }
    {
        self.done.as_slice()
    }
}
