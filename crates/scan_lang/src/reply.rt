ghost use Rattle.std.specs.Prelude.{◌≡◌, ◌++◌, ◌∷◌, [], IfOk, OnOk};
ghost use Rattle.std.specs.Fmt.{signed_decimal};
ghost use Rattle.scan_lang.specs.Replies.{text_of, frame_text, heap_text, collected_text, picture_text, picture_head as picture_head_of, points_text, points_head as points_head_of, place_text, counts_text, sums_text, totals_text, voxels_text, voxels_head as voxels_head_of, voxel_line};

use crossing_export::{Crossing, append_ply};
use depth_frame::{DepthFrame, pgm_bytes};
use itoa::Buffer;
use std::alloc::{AllocError, Global};
use std::marker::Model;
use voxel_block::NoMemory;

/// The reply to an accepted frame.
#[derive(Clone, Copy, Debug, PartialEq, Eq)]
pub struct FrameDone {
    /// The number of accepted frames with this one; it saturates at `u64::MAX`.
    pub frame: u64,
    /// The number of blocks of the map.
    pub blocks: u64,
    /// The number of blocks that are active for the frame.
    pub resident: u32,
}

/// A known voxel, which is one of weight above 0: its coordinates in the whole grid, its distance, where 32767 is the
/// truncation distance, and its weight.
#[derive(Clone, Copy, Debug, PartialEq, Eq)]
pub struct KnownVoxel {
    pub x: i32,
    pub y: i32,
    pub z: i32,
    pub f: i16,
    pub w: u8,
}

/// Sums over a map; each saturates at the ends of its type.
#[derive(Clone, Copy, Debug, PartialEq, Eq)]
pub struct Totals {
    /// The number of blocks.
    pub blocks: u64,
    /// The number of known voxels.
    pub known: u64,
    /// The sum of the known voxels' weights.
    pub weight: u64,
    /// The sum of the known voxels' distances.
    pub distance: i64,
}

/// Where the block of a key lies.
#[derive(Clone, Copy, Debug, PartialEq, Eq)]
pub enum Place {
    /// In the heap: it is active for the last frame.
    Heap,
    /// In the store: the map has it, and it is not active for the last frame.
    Store,
    /// The map has no block of the key.
    Nowhere,
}

/// A list of voxels.
#[derive(Drop)]
pub struct VoxelList {
    items: Vec<KnownVoxel>,
}

impl Model for VoxelList {
    ghost use Rattle.std.specs.Prelude.{List};
    ghost use Rattle.scan_lang.specs.declared.reply.KnownVoxel.{KnownVoxel as Known};

    ghost Value = { List Known };

    ghost view = { λ l. l.items.items };
}

impl VoxelList {
    /// A list of these voxels.
    pub fn make(items: Vec<KnownVoxel>) -> VoxelList
        ensures { result ≡ items.items }
    {
        VoxelList { items }
    }

    /// The voxels.
    pub fn items(&self) -> &[KnownVoxel]
        ensures { result.now ≡ self.now }
    {
        self.items.as_slice()
    }
}

/// A list of the surface's points.
#[derive(Drop)]
pub struct PointList {
    items: Vec<Crossing>,
}

impl Model for PointList {
    ghost use Rattle.std.specs.Prelude.{List};
    ghost use Rattle.crossing_export.specs.declared.crossing.Crossing.{Crossing as Point};

    ghost Value = { List Point };

    ghost view = { λ l. l.items.items };
}

impl PointList {
    /// A list of these points.
    pub fn make(items: Vec<Crossing>) -> PointList
        ensures { result ≡ items.items }
    {
        PointList { items }
    }

    /// The points.
    pub fn items(&self) -> &[Crossing]
        ensures { result.now ≡ self.now }
    {
        self.items.as_slice()
    }
}

/// A reply to a record.
#[derive(Drop)]
pub enum Reply {
    /// A frame was accepted.
    Frame(FrameDone),
    /// A frame was refused: its sides are not those of the configuration.
    Size,
    /// A frame was refused: its pose is out of range.
    PoseRange,
    /// A frame was refused: its matrix is not a rotation.
    PoseRotation,
    /// A frame was refused: more than this number of blocks would be active.
    HeapSpent(u32),
    /// The number of blocks that were removed.
    Collected(u64),
    /// The number of accepted frames, and the picture of the map from the last one's pose.
    Picture(u64, DepthFrame),
    /// There is no picture: no frame was accepted yet.
    NoFrame,
    /// The number of blocks, and all known voxels.
    Voxels(u64, VoxelList),
    /// The surface's points.
    Points(PointList),
    /// Totals over the map.
    Totals(Totals),
    /// The place of a block.
    Place(Place),
    /// The scan ended.
    End,
}

/// The bytes of a reply.
pub fn reply_bytes(alloc: Global, reply: &Reply) -> Result<Vec<u8>, NoMemory>
    ensures { IfOk result (λ v. v.items ≡ text_of reply.now) }
{
    match written(alloc, reply) {
        Ok(bytes) => Ok(bytes),
        Err(_) => Err(NoMemory),
    }
}

fn written(alloc: Global, reply: &Reply) -> Result<Vec<u8>, AllocError>
    ensures { IfOk result (λ v. v.items ≡ text_of reply.now) }
{
    match reply {
        Reply::Frame(done) => frame_bytes(alloc, done),
        Reply::Size => b"frame refused size\n".to_vec(alloc),
        Reply::PoseRange => b"frame refused pose range\n".to_vec(alloc),
        Reply::PoseRotation => b"frame refused pose rotation\n".to_vec(alloc),
        Reply::HeapSpent(limit) => heap_bytes(alloc, *limit),
        Reply::Collected(removed) => collected_bytes(alloc, *removed),
        Reply::Picture(frames, picture) => picture_bytes(alloc, *frames, picture),
        Reply::NoFrame => b"render refused no frame\n".to_vec(alloc),
        Reply::Voxels(blocks, known) => voxels_bytes(alloc, *blocks, known.items()),
        Reply::Points(points) => points_bytes(alloc, points.items()),
        Reply::Totals(totals) => totals_bytes(alloc, totals),
        Reply::Place(place) => place_bytes(alloc, *place),
        Reply::End => b"end\n".to_vec(alloc),
    }
}

fn frame_bytes(alloc: Global, done: &FrameDone) -> Result<Vec<u8>, AllocError>
    ensures { IfOk result (λ v. v.items ≡ frame_text done.now) }
{
    let (frame, blocks, resident) = (done.frame, done.blocks, done.resident);
    let text = format!(in alloc; "frame {frame} blocks {blocks} resident {resident}\n")?;
    Ok(text.into_bytes())
}

fn heap_bytes(alloc: Global, limit: u32) -> Result<Vec<u8>, AllocError>
    ensures { IfOk result (λ v. v.items ≡ heap_text limit) }
{
    let text = format!(in alloc; "frame refused heap {limit}\n")?;
    Ok(text.into_bytes())
}

fn collected_bytes(alloc: Global, removed: u64) -> Result<Vec<u8>, AllocError>
    ensures { IfOk result (λ v. v.items ≡ collected_text removed) }
{
    let text = format!(in alloc; "collect {removed}\n")?;
    Ok(text.into_bytes())
}

fn picture_bytes(alloc: Global, frames: u64, picture: &DepthFrame) -> Result<Vec<u8>, AllocError>
    ensures { IfOk result (λ v. v.items ≡ picture_text frames picture.now) }
{
    let mut bytes = picture_head(alloc, frames)?;
    match pgm_bytes(alloc, picture) {
        Ok(file) => bytes.extend_from_slice(&file)?,
        Err(_) => return Err(AllocError),
    }
    Ok(bytes)
}

fn picture_head(alloc: Global, frames: u64) -> Result<Vec<u8>, AllocError>
    ensures { IfOk result (λ v. v.items ≡ picture_head_of frames) }
{
    let text = format!(in alloc; "render {frames}\n")?;
    Ok(text.into_bytes())
}

fn totals_bytes(alloc: Global, totals: &Totals) -> Result<Vec<u8>, AllocError>
    ensures { IfOk result (λ v. v.items ≡ totals_text totals.now) }
{
    let mut bytes = b"sum ".to_vec(alloc)?;
    bytes.extend_from_slice(&counts_bytes(alloc, totals.blocks, totals.known)?)?;
    bytes.extend_from_slice(&sums_bytes(alloc, totals.weight, totals.distance)?)?;
    Ok(bytes)
}

fn place_bytes(alloc: Global, place: Place) -> Result<Vec<u8>, AllocError>
    ensures { IfOk result (λ v. v.items ≡ place_text place) }
{
    match place {
        Place::Heap => b"place heap\n".to_vec(alloc),
        Place::Store => b"place store\n".to_vec(alloc),
        Place::Nowhere => b"place none\n".to_vec(alloc),
    }
}

fn counts_bytes(alloc: Global, blocks: u64, known: u64) -> Result<Vec<u8>, AllocError>
    ensures { IfOk result (λ v. v.items ≡ counts_text blocks known) }
{
    let text = format!(in alloc; "blocks {blocks} known {known} ")?;
    Ok(text.into_bytes())
}

fn sums_bytes(alloc: Global, weight: u64, distance: i64) -> Result<Vec<u8>, AllocError>
    ensures { IfOk result (λ v. v.items ≡ sums_text weight distance) }
{
    let text = format!(in alloc; "weight {weight} distance {distance}\n")?;
    Ok(text.into_bytes())
}

fn voxels_bytes(alloc: Global, blocks: u64, known: &[KnownVoxel]) -> Result<Vec<u8>, AllocError>
    ensures { IfOk result (λ v. v.items ≡ voxels_text blocks known.now) }
{
    let mut bytes = voxels_head(alloc, blocks, known.len())?;
    for voxel in known {
        write_voxel(&mut bytes, voxel)?;
    }
    Ok(bytes)
}

fn voxels_head(alloc: Global, blocks: u64, known: usize) -> Result<Vec<u8>, AllocError>
    ensures { IfOk result (λ v. v.items ≡ voxels_head_of blocks known) }
{
    let text = format!(in alloc; "voxels {blocks} {known}\n")?;
    Ok(text.into_bytes())
}

fn points_bytes(alloc: Global, points: &[Crossing]) -> Result<Vec<u8>, AllocError>
    ensures { IfOk result (λ v. v.items ≡ points_text points.now) }
{
    let mut bytes = points_head(alloc, points.len())?;
    append_ply(&mut bytes, points)?;
    Ok(bytes)
}

fn points_head(alloc: Global, count: usize) -> Result<Vec<u8>, AllocError>
    ensures { IfOk result (λ v. v.items ≡ points_head_of count) }
{
    let text = format!(in alloc; "points {count}\n")?;
    Ok(text.into_bytes())
}

// Writes the line of a voxel.
fn write_voxel(bytes: &mut Vec<u8>, voxel: &KnownVoxel) -> Result<(), AllocError>
    ensures { OnOk result (bytes.new.items ≡ bytes.old.items ++ voxel_line voxel.now) }
{
    write_number(bytes, i64::from(voxel.x), b' ')?;
    write_number(bytes, i64::from(voxel.y), b' ')?;
    write_number(bytes, i64::from(voxel.z), b' ')?;
    write_number(bytes, i64::from(voxel.f), b' ')?;
    write_number(bytes, i64::from(voxel.w), b'\n')
}

// Writes a number, and the byte after it.
fn write_number(bytes: &mut Vec<u8>, number: i64, end: u8) -> Result<(), AllocError>
    ensures { OnOk result (bytes.new.items ≡ bytes.old.items ++ signed_decimal number ++ end ∷ []) }
{
    bytes.extend_from_slice(Buffer::new().format(number).as_bytes())?;
    bytes.push(end)?;
    Ok(())
}
