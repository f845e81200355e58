ghost use Rattle.std.specs.Prelude.{◌≡◌, ◌+◌, ◌-◌, ◌<◌, ◌≤◌, IfOk};
ghost use Rattle.std.specs.Option.{option_or};
ghost use Rattle.std.specs.Thread.{IsSync};
ghost use Rattle.hash_share.specs.Seats.{Belongs};
ghost use Rattle.hash_share.specs.Steps.{IsFresh, both};
ghost use Rattle.allocator.specs.Work.{HasWorked};

use crate::rows::Rows;
use crate::worker::Worker;
use fusion_core::Gate;
use hash_share::{HashShare, TouchSeat};
use std::alloc::Global;
use std::thread::{Threads, join};
use voxel_block::NoMemory;

/// What workers leave.
#[derive(Drop)]
pub(crate) struct Worked {
    /// Their seats as one.
    pub seat: TouchSeat,
    /// The number that one of them drew where no node was left.
    pub spent: Option<u64>,
}

/// A part of the workers of a round: `count` of them, from number `first` on.
#[derive(Drop)]
pub(crate) struct Part {
    /// A seat whose part is `count`.
    pub seat: TouchSeat,
    pub first: u32,
    pub count: u32,
    /// How many workers the round has.
    pub workers: u32,
}

/// The work of a part of the workers, at once.
#[cycle(workers)]
pub(crate) fn work_all<R: Threads + Sync, B: Rows + Sync, G: Gate>(
    rt: &R,
    alloc: Global,
    share: &HashShare,
    rows: &B,
    gate: &G,
    part: Part,
) -> Result<Worked, NoMemory>
    requires seat { Belongs part.seat share.now × (part.seat.knows.part ≡ part.count) × IsFresh part.seat.knows }
    requires workers { (1 ≤ part.count) × (part.first + part.count ≤ part.workers) × (part.workers ≤ 64) }
    ensures { IfOk result (λ d. HasWorked share.now (B.shown rows.now) part.workers part.first part.count d.seat d.spent) }
{
    if part.count == 1 {
        return work_alone(alloc, share, rows, gate, part);
    }
    let (low, high) = cut(share, part);
    let front = move || -> Result<Worked, NoMemory>
        requires { IsSync R.row × IsSync B.row × IsSync G.row × Belongs low.seat share.now × (low.seat.knows.part ≡ low.count) × IsFresh low.seat.knows × (1 ≤ low.count) × (low.first + low.count ≤ low.workers) × (low.workers ≤ 64) }
        ensures { IfOk result (λ d. HasWorked share.entry.now (B.shown rows.entry.now) low.workers low.first low.count d.seat d.spent) }
    { work_all(rt, alloc, share, rows, gate, low) };
    let back = move || -> Result<Worked, NoMemory>
        requires { IsSync R.row × IsSync B.row × IsSync G.row × Belongs high.seat share.now × (high.seat.knows.part ≡ high.count) × IsFresh high.seat.knows × (1 ≤ high.count) × (high.first + high.count ≤ high.workers) × (high.workers ≤ 64) }
        ensures { IfOk result (λ d. HasWorked share.entry.now (B.shown rows.entry.now) high.workers high.first high.count d.seat d.spent) }
    { work_all(rt, alloc, share, rows, gate, high) };
    let (ours, theirs) = join(rt, front, back);
    Ok(put_together(share, ours?, theirs?))
}

/// The work of one worker.
fn work_alone<B: Rows, G: Gate>(
    alloc: Global,
    share: &HashShare,
    rows: &B,
    gate: &G,
    part: Part,
) -> Result<Worked, NoMemory>
    requires seat { Belongs part.seat share.now × (part.seat.knows.part ≡ 1) × IsFresh part.seat.knows }
    requires workers { part.first + 1 ≤ part.workers }
    ensures { IfOk result (λ d. HasWorked share.now (B.shown rows.now) part.workers part.first 1 d.seat d.spent) }
{
    let mut worker = Worker::make(alloc, part.first, part.seat)?;
    let spent = worker.take_rows(share, rows, part.workers, gate)?;
    Ok(Worked {
        seat: worker.into_seat(),
        spent,
    })
}

/// A part of the workers cut in two, neither of which is empty.
fn cut(share: &HashShare, part: Part) -> (Part, Part)
    requires belongs { Belongs part.seat share.now }
    requires part { (2 ≤ part.count) × (part.seat.knows.part ≡ part.count) × (part.first + part.count ≤ 64) }
    requires fresh { IsFresh part.seat.knows }
    ensures belongs { Belongs result.0.seat share.now × Belongs result.1.seat share.now }
    ensures seats { (result.0.seat.knows.part ≡ result.0.count) × (result.1.seat.knows.part ≡ result.1.count) }
    ensures fresh { IsFresh result.0.seat.knows × IsFresh result.1.seat.knows }
    ensures numbers { (result.0.first ≡ part.first) × (result.1.first ≡ part.first + result.0.count) }
    ensures counts { (result.0.count + result.1.count ≡ part.count) × (1 ≤ result.0.count) × (1 ≤ result.1.count) }
    ensures workers { (result.0.workers ≡ part.workers) × (result.1.workers ≡ part.workers) }
{
    let Part {
        mut seat,
        first,
        count,
        workers,
    } = part;
    let half = count / 2;
    let rest = count - half;
    let other = share.split(&mut seat, half);
    (
        Part {
            seat,
            first,
            count: rest,
            workers,
        },
        Part {
            seat: other,
            first: first + rest,
            count: half,
            workers,
        },
    )
}

/// What two parts of the workers leave, together.
fn put_together(share: &HashShare, ours: Worked, theirs: Worked) -> Worked
    requires { Belongs ours.seat share.now × Belongs theirs.seat share.now }
    ensures belongs { Belongs result.seat share.now }
    ensures seat { result.seat.knows ≡ both ours.seat.knows theirs.seat.knows }
    ensures spent { result.spent ≡ option_or ours.spent theirs.spent }
{
    let mut seat = ours.seat;
    share.join(&mut seat, theirs.seat);
    Worked {
        seat,
        spent: ours.spent.or(theirs.spent),
    }
}
