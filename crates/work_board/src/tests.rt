ghost use Rattle.std.specs.Prelude.{◌≡◌, ◌<◌, ◌≤◌, IfOk, vec_len};
ghost use Rattle.std.specs.Thread.{IsSync};
ghost use Rattle.std.specs.Vec.{vec_capacity};
ghost use Rattle.fusion_core.specs.Boards.{IsReady};
ghost use Rattle.fusion_core.specs.Machines.{start_of};
ghost use Rattle.fusion_core.specs.Works.{IsFuse, IsWork, greatest_weight};
ghost use Rattle.work_board.specs.Seats.{Belongs};

use super::*;
use block_heap::Cell;
use camera::{Camera, CameraFields};
use depth_frame::DepthFrame;
use depth_view::Depths;
use fixed_geom::{PoseRows, Vec3};
use fusion_core::{Core, Dock, Done, Event, Frame, Job, Settings, Slot, Work};
use std::alloc::Global;
use std::test::Fail;
use std::thread::{Threads, join};
use voxel_block::{Block, BlockKey, Packed, Summary, Voxel, pack_into};

fn is_send_and_sync<T: Send + Sync>(_value: &T) {}

fn is_send<T: Send>(_value: &T) {}

const ONE: i64 = 1 << 30;

// One pixel that looks along the axis, voxels of 1 cm and a truncation distance of 4 cm.
const PIXEL: CameraFields = CameraFields {
    width: 1,
    height: 1,
    fx: 65536,
    fy: 65536,
    cx: 0,
    cy: 0,
    unit: 1000,
    near: 500000,
    far: 2000000,
    voxel: 10000,
    mu: 40000,
    radius: 2100000,
    centre: 1020000,
};

// What a board is made of.
#[derive(Drop)]
struct Parts {
    jobs: Vec<Job>,
    cells: Vec<Cell>,
    docks: Vec<Dock>,
    free: Vec<u32>,
}

// A key whose blocks the wall of `a_wall` goes through.
fn key(x: i16) -> BlockKey {
    BlockKey { x, y: 0, z: 12 }
}

// No job, one free cell and one bare dock.
fn no_jobs(alloc: Global, work: &Work) -> Result<Parts, Fail>
    requires { IsWork work.now × (1 ≤ greatest_weight work.now) }
    ensures ready { IfOk result (λ p. IsReady (start_of p.jobs.items p.cells.items p.docks.items p.free.items work.now)) }
    ensures room { IfOk result (λ p. vec_len p.cells ≤ vec_capacity p.free) }
{
    let _ = work;
    let mut free = Vec::with_capacity(alloc, 1)?;
    free.push_reserved(0);
    Ok(Parts {
        jobs: Vec::new(alloc),
        cells: Vec::from_array(alloc, [Cell::Free(Block::make(alloc)?)])?,
        docks: Vec::from_array(alloc, [Dock::Bare(Packed::make(alloc)?)])?,
        free,
    })
}

// The board of these parts, and its first seat.
fn board_of(
    alloc: Global,
    parts: Parts,
    work: &Work,
    seats: u32,
) -> Result<(Board, BoardSeat), Fail>
    requires ready { IsReady (start_of parts.jobs.items parts.cells.items parts.docks.items parts.free.items work.now) }
    requires room { vec_len parts.cells ≤ vec_capacity parts.free }
    requires seats { (1 ≤ seats) × (seats ≤ 64) }
    ensures belongs { IfOk result (λ r. Belongs r.1 r.0 × (r.0.seats ≡ seats) × (r.1.knows.part ≡ seats)) }
    ensures work { IfOk result (λ r. r.0.start.work ≡ work.now) }
{
    let Parts {
        jobs,
        cells,
        docks,
        free,
    } = parts;
    match Board::make(alloc, jobs, cells, docks, free, work, seats) {
        Ok(made) => Ok(made),
        Err(_) => Err(Fail::new("out of memory")),
    }
}

#[test]
fn a_board_without_jobs_gives_back_what_it_was_given(rt: HostRuntime) -> Result<(), Fail> {
    let work = Work::Look { max_weight: 255 };
    let parts = no_jobs(rt.alloc(), &work)?;
    let (board, mut seat) = board_of(rt.alloc(), parts, &work, 1)?;
    is_send_and_sync(&board);
    is_send(&seat);
    assert_eq!(rt; board.turn(&mut seat, &work), Turn::Empty { drawn: 0 });
    assert_eq!(rt; board.turn(&mut seat, &work), Turn::Empty { drawn: 1 });
    let end = board.close(seat, &work);
    assert_eq!(rt;
        (end.cells.len(), end.docks.len(), end.done.len()),
        (1, 1, 0)
    );
    assert!(rt; matches!(end.cells.as_slice().first(), Some(Cell::Free(_))));
    assert!(rt; matches!(end.docks.as_slice().first(), Some(Dock::Bare(_))));
    assert_eq!(rt; end.free.as_slice(), [0].as_slice());
    Ok(())
}

// One owned cell, and the job that looks at it.
fn one_check(alloc: Global, work: &Work) -> Result<Parts, Fail>
    requires { IsWork work.now × (1 ≤ greatest_weight work.now) }
    ensures ready { IfOk result (λ p. IsReady (start_of p.jobs.items p.cells.items p.docks.items p.free.items work.now)) }
    ensures room { IfOk result (λ p. vec_len p.cells ≤ vec_capacity p.free) }
{
    let _ = work;
    Ok(Parts {
        jobs: Vec::from_array(alloc, [Job::Check { cell: 0 }])?,
        cells: Vec::from_array(alloc, [Cell::Owned(key(0), Block::make(alloc)?)])?,
        docks: Vec::new(alloc),
        free: Vec::with_capacity(alloc, 1)?,
    })
}

#[test]
fn a_new_block_is_looked_at(rt: HostRuntime) -> Result<(), Fail> {
    let work = Work::Look { max_weight: 255 };
    let parts = one_check(rt.alloc(), &work)?;
    let (board, mut seat) = board_of(rt.alloc(), parts, &work, 1)?;
    assert_eq!(rt; board.turn(&mut seat, &work), Turn::Did(0));
    assert_eq!(rt; board.turn(&mut seat, &work), Turn::Empty { drawn: 1 });
    let end = board.close(seat, &work);
    let looked = Done::Looked(Summary {
        known: 0,
        least: 32767,
    });
    assert_eq!(rt; end.done.as_slice(), [looked].as_slice());
    assert_eq!(rt; end.cells.len(), 1);
    assert_eq!(rt; owner(&end, 0), Some(key(0)));
    for i in 0..512 {
        assert_eq!(rt; voxel(&end, 0, i), Some(Voxel { f: 32767, w: 0 }));
    }
    Ok(())
}

// The key of an owned cell.
fn owner(end: &BoardEnd, cell: usize) -> Option<BlockKey> {
    match end.cells.as_slice().get(cell) {
        Some(Cell::Owned(key, _)) => Some(*key),
        _ => None,
    }
}

// A voxel of an owned cell.
fn voxel(end: &BoardEnd, cell: usize, i: u16) -> Option<Voxel>
    requires { i < 512 }
{
    match end.cells.as_slice().get(cell) {
        Some(Cell::Owned(_, block)) => Some(block.get(i)),
        _ => None,
    }
}

// The answer of a job.
fn answer(end: &BoardEnd, job: usize) -> Option<Done> {
    end.done.as_slice().get(job).copied()
}

// The work of a frame with one pixel, which shows a wall one metre away.
fn a_wall(alloc: Global) -> Result<Work, Fail>
    ensures fuse { IfOk result IsFuse }
    ensures work { IfOk result IsWork }
    ensures weight { IfOk result (λ w. 1 ≤ greatest_weight w) }
{
    let settings = Settings {
        version: 1,
        camera: Camera::make(PIXEL)?,
        max_weight: 255,
        heap_blocks: 1,
    };
    let rows = PoseRows {
        r: [ONE, 0, 0, 0, ONE, 0, 0, 0, ONE],
        t: Vec3 { x: 0, y: 0, z: 0 },
    };
    let image = DepthFrame::make(1, 1, vec![in alloc; 1000_u16; 1]?);
    let Ok(frame) = Frame::offered(&settings, &rows, image) else {
        return Err(Fail::new("the frame is refused"));
    };
    let mut depths = Depths::make(alloc);
    frame.fill(&mut depths)?;
    Ok(Work::Fuse { frame, depths })
}

// A job of each kind: three on owned cells, of which one goes to a dock, and two that draw a cell.
fn mixed(alloc: Global, work: &Work) -> Result<Parts, Fail>
    requires { IsFuse work.now × IsWork work.now × (1 ≤ greatest_weight work.now) }
    ensures ready { IfOk result (λ p. IsReady (start_of p.jobs.items p.cells.items p.docks.items p.free.items work.now)) }
    ensures room { IfOk result (λ p. vec_len p.cells ≤ vec_capacity p.free) }
{
    let _ = work;
    let block = Block::make(alloc)?;
    let mut packed = Packed::make(alloc)?;
    let entering = key(3);
    pack_into(&block, entering, &mut packed);
    let jobs = [
        Job::Stay { cell: 0 },
        Job::Leave { cell: 1, dock: 0 },
        Job::Check { cell: 2 },
        Job::Enter { dock: 1 },
        Job::Fresh { key: key(4) },
    ];
    let cells = [
        Cell::Owned(key(0), Block::make(alloc)?),
        Cell::Owned(key(1), Block::make(alloc)?),
        Cell::Owned(key(2), Block::make(alloc)?),
        Cell::Free(Block::make(alloc)?),
        Cell::Free(block),
    ];
    let mut free = Vec::with_capacity(alloc, 5)?;
    free.push_reserved(3);
    free.push_reserved(4);
    Ok(Parts {
        jobs: Vec::from_array(alloc, jobs)?,
        cells: Vec::from_array(alloc, cells)?,
        docks: Vec::from_array(
            alloc,
            [
                Dock::Bare(Packed::make(alloc)?),
                Dock::Full(entering, packed),
            ],
        )?,
        free,
    })
}

// Takes six turns, one more than there are jobs on a mixed board, and returns how many did a job.
fn take_turns(board: &Board, seat: &mut BoardSeat, work: &Work) -> u32
    requires { Belongs seat.old board.now × (work.now ≡ board.now.start.work) }
    ensures { Belongs seat.new board.now × (seat.new.knows.part ≡ seat.old.knows.part) }
{
    let mut done = 0_u32;
    for _ in 0..6_u8 {
        if let Turn::Did(_) = board.turn(seat, work) {
            done = done.wrapping_add(1);
        }
    }
    done
}

// Two seats take turns at once.
fn turns_by_two<R: Threads + Sync>(
    rt: &R,
    board: &Board,
    seat: BoardSeat,
    work: &Work,
) -> (BoardSeat, u32)
    requires sync { IsSync R.row }
    requires seat { Belongs seat board.now × (seat.knows.part ≡ 2) × (work.now ≡ board.now.start.work) }
    ensures { Belongs result.0 board.now × (result.0.knows.part ≡ 2) }
{
    let mut seat = seat;
    let mut other = board.split(&mut seat, 1);
    let (taken, mine) = join(
        rt,
        move || -> (BoardSeat, u32)
            requires { Belongs other board.now × (other.knows.part ≡ 1) × (work.now ≡ board.now.start.work) }
            ensures { Belongs result.0 board.entry.now × (result.0.knows.part ≡ 1) }
        {
            let done = take_turns(board, &mut other, work);
            (other, done)
        },
        move || -> (BoardSeat, u32)
            requires { Belongs seat board.now × (seat.knows.part ≡ 1) × (work.now ≡ board.now.start.work) }
            ensures { Belongs result.0 board.entry.now × (result.0.knows.part ≡ 1) }
        {
            let done = take_turns(board, &mut seat, work);
            (seat, done)
        },
    );
    let (mut seat, done) = mine;
    board.join(&mut seat, taken.0);
    (seat, done.wrapping_add(taken.1))
}

// Four seats take turns at once.
fn turns_by_four<R: Threads + Sync>(
    rt: &R,
    board: &Board,
    seat: BoardSeat,
    work: &Work,
) -> (BoardSeat, u32)
    requires sync { IsSync R.row }
    requires seat { Belongs seat board.now × (seat.knows.part ≡ 4) × (work.now ≡ board.now.start.work) }
    ensures { Belongs result.0 board.now × (result.0.knows.part ≡ 4) }
{
    let mut seat = seat;
    let other = board.split(&mut seat, 2);
    let (taken, mine) = join(
        rt,
        move || -> (BoardSeat, u32)
            requires { IsSync R.row × Belongs other board.now × (other.knows.part ≡ 2) × (work.now ≡ board.now.start.work) }
            ensures { Belongs result.0 board.entry.now × (result.0.knows.part ≡ 2) }
        { turns_by_two(rt, board, other, work) },
        move || -> (BoardSeat, u32)
            requires { IsSync R.row × Belongs seat board.now × (seat.knows.part ≡ 2) × (work.now ≡ board.now.start.work) }
            ensures { Belongs result.0 board.entry.now × (result.0.knows.part ≡ 2) }
        { turns_by_two(rt, board, seat, work) },
    );
    let (mut seat, done) = mine;
    board.join(&mut seat, taken.0);
    (seat, done.wrapping_add(taken.1))
}

// What is wanted at the end of a mixed board, whichever seats did which jobs. The wall goes through the voxels with the
// index 256 to 319 of each block that is updated, and each job is done once, so they have the weight 1.
fn ends_as_wanted(end: &BoardEnd) -> bool {
    let wall = Some(Voxel { f: 0, w: 1 });
    let looked = Done::Looked(Summary {
        known: 0,
        least: 32767,
    });
    let (Some(Done::Cell(entered)), Some(Done::Cell(made))) = (answer(end, 3), answer(end, 4))
    else {
        return false;
    };
    let is_left = match (end.docks.as_slice().first(), end.docks.as_slice().get(1)) {
        (Some(Dock::Full(left, packed)), Some(Dock::Bare(_))) => {
            *left == key(1) && packed.get(256) == Voxel { f: 32767, w: 0 }
        }
        _ => false,
    };
    let is_updated = [0, entered as usize, made as usize]
        .iter()
        .all(|cell| voxel(end, *cell, 256) == wall);
    is_left
        && is_updated
        && answer(end, 0) == Some(Done::Cell(0))
        && answer(end, 1) == Some(Done::Freed(1))
        && answer(end, 2) == Some(looked)
        && (entered.min(made), entered.max(made)) == (3, 4)
        && owner(end, 0) == Some(key(0))
        && owner(end, 1).is_none()
        && owner(end, 2) == Some(key(2))
        && owner(end, entered as usize) == Some(key(3))
        && owner(end, made as usize) == Some(key(4))
        && end.free.as_slice() == [1].as_slice()
}

// The machine of a mixed board, at its end. Its one worker does each job in turn, and draws where the machine allows it.
fn ended_machine(alloc: Global, work: &Work) -> Result<Core, Fail>
    requires { IsFuse work.now × IsWork work.now × (1 ≤ greatest_weight work.now) }
{
    let Parts {
        jobs,
        cells,
        docks,
        free,
    } = mixed(alloc, work)?;
    let mut machine = Core::make(alloc, jobs, cells, docks, free, work, 1)?;
    for _ in 0..5_u8 {
        for event in [Event::Claim(0), Event::Draw(0), Event::Finish(0)] {
            let _ = machine.step(event, work);
        }
    }
    Ok(machine)
}

fn is_same_block(block: &Block, other: &Block) -> bool {
    for i in 0..512 {
        if block.get(i) != other.get(i) {
            return false;
        }
    }
    true
}

fn is_same_cell(cell: Option<&Cell>, slot: Option<&Slot>) -> bool {
    match (cell, slot) {
        (Some(Cell::Free(_)), Some(Slot::OfCell(Cell::Free(_)))) => true,
        (Some(Cell::Owned(key, block)), Some(Slot::OfCell(Cell::Owned(owner, other)))) => {
            key == owner && is_same_block(block, other)
        }
        _ => false,
    }
}

fn is_same_dock(dock: Option<&Dock>, slot: Option<&Slot>) -> bool {
    match (dock, slot) {
        (Some(Dock::Bare(_)), Some(Slot::OfDock(Dock::Bare(_)))) => true,
        (Some(Dock::Full(key, packed)), Some(Slot::OfDock(Dock::Full(owner, other)))) => {
            key == owner && packed.bytes() == other.bytes()
        }
        _ => false,
    }
}

// Whether a job has the answer that the machine gave it. Which free cell it drew is open, but not what is in it.
fn is_same_answer(end: &BoardEnd, machine: &Core, job: usize) -> bool {
    match (answer(end, job), machine.answers().get(job)) {
        (Some(Done::Cell(cell)), Some(Some(Done::Cell(other)))) => is_same_cell(
            end.cells.as_slice().get(cell as usize),
            machine.slots().get(*other as usize),
        ),
        (Some(done), Some(Some(other))) => done == *other,
        _ => false,
    }
}

// Whether a mixed board ended as its machine did.
fn ends_as_the_machine(end: &BoardEnd, machine: &Core) -> bool {
    let (cells, docks, slots) = (end.cells.as_slice(), end.docks.as_slice(), machine.slots());
    (0..5).all(|job| is_same_answer(end, machine, job))
        && (0..3).all(|cell| is_same_cell(cells.get(cell), slots.get(cell)))
        && is_same_dock(docks.first(), slots.get(5))
        && is_same_dock(docks.get(1), slots.get(6))
}

#[test]
fn four_seats_do_jobs_of_each_kind_at_once(rt: HostRuntime) -> Result<(), Fail> {
    let work = a_wall(rt.alloc())?;
    let machine = ended_machine(rt.alloc(), &work)?;
    for _ in 0..100_u8 {
        let parts = mixed(rt.alloc(), &work)?;
        let (board, seat) = board_of(rt.alloc(), parts, &work, 4)?;
        let (seat, done) = turns_by_four(&rt, &board, seat, &work);
        assert_eq!(rt; done, 5);
        assert_eq!(rt; seat.part(), 4);
        let end = board.close(seat, &work);
        assert_eq!(rt;
            (end.cells.len(), end.docks.len(), end.done.len()),
            (5, 2, 5)
        );
        assert!(rt; ends_as_wanted(&end));
        assert!(rt; ends_as_the_machine(&end, &machine));
    }
    Ok(())
}
