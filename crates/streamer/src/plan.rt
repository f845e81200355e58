ghost use Rattle.std.specs.Prelude.{◌≡◌, ◌≤◌, ◌+◌, ◌<◌, ◌^◌, ◌++◌, ◌&&◌, ◌∷◌, [], not, length, IfOk, IfErr, OnOk, if◌then◌else◌};
ghost use Rattle.std.specs.List.{count_by, filter};
ghost use Rattle.std.specs.FinMap.{contains_key};
ghost use Rattle.camera.specs.Cameras.{is_active};
ghost use Rattle.camera.specs.Visibility.{is_visible};
ghost use Rattle.streamer.specs.Places.{blocks_of};
ghost use Rattle.streamer.specs.Plans.{IsPlan, SaysWhy};
ghost use Rattle.streamer.specs.declared.plan.PlanError.TheVariants.{NoMemory as no_memory};

use crate::rest::Rest;
use crate::table::keys_of;
use camera::Camera;
use fixed_geom::Pose;
use spatial_hash::HashTable;
use std::alloc::{AllocError, Global};
use std::fmt;
use voxel_block::{BlockKey, NoMemory};

/// Which blocks move for a frame, and which stay. Each list is in the order of keys.
#[derive(Drop)]
pub struct Plan {
    /// Blocks that leave the heap: they lie there, and are not active.
    pub leave: Vec<BlockKey>,
    /// Blocks that enter the heap: they lie in the store, and are active.
    pub enter: Vec<BlockKey>,
    /// Touched keys that are not known.
    pub fresh: Vec<BlockKey>,
    /// Blocks that stay in the heap and may be seen.
    pub stay: Vec<BlockKey>,
    /// The number of known and touched blocks that are active.
    pub need: u64,
}

/// Why a frame has no plan.
#[derive(Clone, Copy, Debug, PartialEq, Eq)]
pub enum PlanError {
    /// This number of blocks would be active, which is more than the heap has cells.
    HeapSpent { need: u64 },
    /// Out of memory.
    NoMemory,
}

impl fmt::Display for PlanError {
    fn fmt<W: fmt::Write>(&self, f: &mut fmt::Formatter<W>) -> fmt::Result {
        match self {
            PlanError::HeapSpent { need } => write!(
                f,
                "{need} blocks would be active, more than the heap has cells"
            ),
            PlanError::NoMemory => write!(f, "out of memory"),
        }
    }
}

impl From<AllocError> for PlanError {
    ghost from_gives = { λ _ e. e ≡ no_memory };

    fn from(_: AllocError) -> Self {
        PlanError::NoMemory
    }
}

impl From<NoMemory> for PlanError {
    ghost from_gives = { λ _ e. e ≡ no_memory };

    fn from(_: NoMemory) -> Self {
        PlanError::NoMemory
    }
}

/// The plan of a frame: which blocks move, and which stay. No block moves.
///
/// `touched` is a table whose keys are those of the heap and of the frame's truncation band. Where more blocks would
/// be active than the heap has cells, the frame has no plan.
pub fn plan_frame(
    alloc: Global,
    rest: &Rest,
    touched: &HashTable,
    camera: &Camera,
    pose: &Pose,
) -> Result<Plan, PlanError>
    ensures plan { IfOk result (IsPlan camera.now pose.now rest.now touched.now) }
    ensures room { IfOk result (λ plan. plan.need ≤ length rest.now.heap.cells) }
    ensures spent { IfErr result (SaysWhy camera.now pose.now rest.now touched.now) }
{
    let plan = plan_all(alloc, rest, touched, camera, pose)?;
    if plan.need > u64::from(rest.cell_count()) {
        return Err(PlanError::HeapSpent { need: plan.need });
    }
    Ok(plan)
}

/// The same, whatever the number of cells.
fn plan_all(
    alloc: Global,
    rest: &Rest,
    touched: &HashTable,
    camera: &Camera,
    pose: &Pose,
) -> Result<Plan, NoMemory>
    ensures { IfOk result (IsPlan camera.now pose.now rest.now touched.now) }
{
    let resident = sort_resident(alloc, &keys_of(alloc, rest.hash())?, camera, pose)?;
    let enter = rest.store().keys_active(alloc, camera, pose)?;
    let fresh = fresh_keys(alloc, rest, &keys_of(alloc, touched)?)?;
    let need = resident.active + enter.len() as u64 + active_count(&fresh, camera, pose);
    Ok(Plan {
        leave: resident.leave,
        enter,
        fresh,
        stay: resident.stay,
        need,
    })
}

/// Resident blocks by what becomes of them.
#[derive(Drop)]
struct Resident {
    /// Not active.
    leave: Vec<BlockKey>,
    /// Active, and may be seen.
    stay: Vec<BlockKey>,
    /// How many are active.
    active: u64,
}

/// What becomes of resident blocks for a frame.
fn sort_resident(
    alloc: Global,
    keys: &[BlockKey],
    camera: &Camera,
    pose: &Pose,
) -> Result<Resident, AllocError>
    ensures leave { IfOk result (λ r. r.leave.items ≡ filter (λ b. not (is_active camera.now pose.now b)) keys.now) }
    ensures stay { IfOk result (λ r. r.stay.items ≡ filter (λ b. is_active camera.now pose.now b && is_visible camera.now pose.now b) keys.now) }
    ensures active { IfOk result (λ r. r.active ≡ count_by (is_active camera.now pose.now) keys.now) }
{
    let mut resident = Resident {
        leave: Vec::new(alloc),
        stay: Vec::new(alloc),
        active: 0,
    };
    for key in keys {
        sort_one(&mut resident, *key, camera, pose)?;
    }
    Ok(resident)
}

/// What becomes of one more resident block.
fn sort_one(
    resident: &mut Resident,
    key: BlockKey,
    camera: &Camera,
    pose: &Pose,
) -> Result<(), AllocError>
    requires { resident.old.active < 2 ^ 63 }
    ensures leave { OnOk result (resident.new.leave.items ≡ resident.old.leave.items ++ (if not (is_active camera.now pose.now key) then key ∷ [] else [])) }
    ensures stay { OnOk result (resident.new.stay.items ≡ resident.old.stay.items ++ (if is_active camera.now pose.now key && is_visible camera.now pose.now key then key ∷ [] else [])) }
    ensures active { OnOk result (resident.new.active ≡ resident.old.active + (if is_active camera.now pose.now key then 1 else 0)) }
{
    let sight = camera.sight(pose, key);
    if !sight.active {
        resident.leave.push(key)?;
        return Ok(());
    }
    resident.active += 1;
    if sight.visible {
        resident.stay.push(key)?;
    }
    Ok(())
}

/// Those of these keys that are not known.
fn fresh_keys(alloc: Global, rest: &Rest, keys: &[BlockKey]) -> Result<Vec<BlockKey>, AllocError>
    ensures { IfOk result (λ v. v.items ≡ filter (λ b. not (contains_key (blocks_of rest.now) b)) keys.now) }
{
    let mut fresh = Vec::new(alloc);
    for key in keys {
        if !rest.contains(*key) {
            fresh.push(*key)?;
        }
    }
    Ok(fresh)
}

/// How many of these keys have active blocks.
fn active_count(keys: &[BlockKey], camera: &Camera, pose: &Pose) -> u64
    ensures { result ≡ count_by (is_active camera.now pose.now) keys.now }
{
    let mut count = 0;
    for key in keys {
        if camera.active(pose, *key) {
            count += 1;
        }
    }
    count
}
