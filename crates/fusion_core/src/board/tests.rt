ghost use Rattle.std.specs.Prelude.{◌≡◌, ◌≤◌, IfOk};
ghost use Rattle.fusion_core.specs.Works.{IsFuse, IsWork, greatest_weight};

use super::*;
use crate::tests::{AHEAD, PIXEL};
use crate::{Frame, Settings};
use block_heap::Cell;
use camera::Camera;
use depth_frame::DepthFrame;
use depth_view::Depths;
use fixed_geom::{PoseRows, Vec3};
use std::alloc::Global;
use std::test::Fail;
use voxel_block::{Block, BlockKey};

const KEY: BlockKey = BlockKey { x: 0, y: 0, z: 12 };

fn is_shared<T: Send + Sync>(_value: &T) {}

// Jobs and what they are done on and by may go to other threads.
fn cross_threads(job: &Job, cell: &Cell, dock: &Dock, work: &Work) {
    is_shared(job);
    is_shared(cell);
    is_shared(dock);
    is_shared(work);
}

// The machine of two workers with one job, which makes a block in the one free cell.
fn core_of_one_job(alloc: Global, work: &Work) -> Result<Core, Fail>
    requires fuse { IsFuse work.now }
    requires work { IsWork work.now }
    requires weight { 1 ≤ greatest_weight work.now }
    ensures { IfOk result (λ m. m.start.work ≡ work.now) }
{
    let mut jobs = Vec::new(alloc);
    jobs.push(Job::Fresh { key: KEY })?;
    let mut cells = Vec::new(alloc);
    cells.push(Cell::Free(Block::make(alloc)?))?;
    let docks = Vec::new(alloc);
    let mut free = Vec::new(alloc);
    free.push(0)?;
    let core = Core::make(alloc, jobs, cells, docks, free, work, 2)?;
    Ok(core)
}

// Whether each of three events is allowed, one after another.
fn answers(core: &mut Core, work: &Work, events: [Event; 3]) -> [bool; 3]
    requires { work.now ≡ core.old.start.work }
{
    [
        core.step(events[0], work).is_ok(),
        core.step(events[1], work).is_ok(),
        core.step(events[2], work).is_ok(),
    ]
}

#[test]
fn steps_are_allowed_or_not(rt: HostRuntime) -> Result<(), Fail> {
    let alloc = rt.alloc();
    let work = a_wall(alloc)?;
    for (name, events, allowed) in [
        (
            "a job is claimed, drawn for and finished",
            [Event::Claim(0), Event::Draw(0), Event::Finish(0)],
            [true, true, true],
        ),
        (
            "no second job is left",
            [Event::Claim(0), Event::Claim(1), Event::Draw(0)],
            [true, false, true],
        ),
        (
            "who has no job draws no cell",
            [Event::Draw(1), Event::Claim(1), Event::Draw(1)],
            [false, true, true],
        ),
        (
            "a new block wants a cell",
            [Event::Claim(0), Event::Finish(0), Event::Draw(0)],
            [true, false, true],
        ),
        (
            "there is no third worker",
            [Event::Claim(2), Event::Claim(1), Event::Finish(2)],
            [false, true, false],
        ),
        (
            "a cell is drawn once",
            [Event::Claim(1), Event::Draw(1), Event::Draw(1)],
            [true, true, false],
        ),
    ] {
        let mut core = core_of_one_job(alloc, &work)?;
        assert_eq!(rt; answers(&mut core, &work, events), allowed, "{}", name);
    }
    Ok(())
}

// The work of a frame with one pixel, which shows a wall one metre away.
fn a_wall(alloc: Global) -> Result<Work, Fail>
    ensures fuse { IfOk result IsFuse }
    ensures work { IfOk result IsWork }
    ensures weight { IfOk result (λ w. 1 ≤ greatest_weight w) }
{
    let settings = Settings {
        version: 1,
        camera: Camera::make(PIXEL)?,
        max_weight: 1,
        heap_blocks: 1,
    };
    let rows = PoseRows {
        r: AHEAD,
        t: Vec3 { x: 0, y: 0, z: 0 },
    };
    let image = DepthFrame::make(1, 1, vec![in alloc; 1000_u16; 1]?);
    let Ok(frame) = Frame::offered(&settings, &rows, image) else {
        return Err(Fail::new("the frame is refused"));
    };
    let mut depths = Depths::make(alloc);
    frame.fill(&mut depths)?;
    Ok(Work::Fuse { frame, depths })
}
