ghost use Rattle.std.specs.Prelude.{◌≡◌, ◌<◌, ◌++◌, None, Some, filter, option_map, IfOk, OnOk, length, replicate, slice_set};
ghost use Rattle.std.specs.Slice.Iter.{iter_rest};
ghost use Rattle.camera.specs.Cameras.{is_active};
ghost use Rattle.chunk_store.specs.Rows.{IsRow, held_at, keys_in};

use camera::Camera;
use fixed_geom::Pose;
use std::alloc::{AllocError, Global};
use std::marker::Model;
use std::slice;
use voxel_block::{BlockKey, ChunkKey, Packed};

/// The number of blocks in a chunk.
pub(crate) const PLACES: usize = 512;

/// The blocks of one chunk. It has a place for each key of the chunk, so no block that comes takes memory.
#[derive(Drop)]
pub(crate) struct Row {
    places: Vec<Option<(BlockKey, Packed)>>,
    /// The number of places that hold a block.
    held: usize,
}

impl Model for Row {
    ghost use Rattle.std.specs.Prelude.{◌≡◌, length};
    ghost use Rattle.std.specs.List.{count_by};
    ghost use Rattle.std.specs.Option.{is_some};
    ghost use Rattle.chunk_store.specs.Codes.{coded_row};
    ghost use Rattle.chunk_store.specs.Rows.{Row};

    ghost Value = { Row };

    ghost coded = { coded_row };

    ghost view = { λ r. r.places.items };

    ghost invariant = { λ r. (length r.places.items ≡ 512) × (r.held ≡ count_by is_some r.places.items) };
}

impl Row {
    // A row that holds nothing.
    pub(crate) fn make(alloc: Global) -> Result<Row, AllocError>
        ensures { IfOk result (λ r. r ≡ replicate 512 None) }
    {
        let mut places = Vec::with_capacity(alloc, PLACES)?;
        for _ in 0..PLACES {
            places.push(None)?;
        }
        Ok(Row { places, held: 0 })
    }

    // Puts a block into a place that holds nothing.
    pub(crate) fn put(&mut self, place: usize, key: BlockKey, packed: Packed)
        requires low { place < 512 }
        requires vacant { held_at self.old place ≡ None }
        ensures row { self.new ≡ slice_set self.old place (Some (key, packed)) }
        ensures long { length self.old ≡ 512 }
    {
        self.places[place] = Some((key, packed));
        self.held += 1;
    }

    // Takes the block out of a place.
    pub(crate) fn take(&mut self, place: usize) -> Option<Packed>
        requires low { place < 512 }
        ensures value { result ≡ option_map (λ h. h.1) (held_at self.old place) }
        ensures row { self.new ≡ slice_set self.old place None }
        ensures long { length self.old ≡ 512 }
    {
        let (_, packed) = self.places[place].take()?;
        self.held -= 1;
        Some(packed)
    }

    // The block in a place.
    pub(crate) fn peek(&self, place: usize) -> Option<&Packed>
        requires { place < 512 }
        ensures { option_map (λ p. p.now) result ≡ option_map (λ h. h.1) (held_at self.now place) }
    {
        let (_, packed) = self.places[place].as_ref()?;
        Some(packed)
    }

    // The places, in order.
    pub(crate) fn places(&self) -> slice::Iter<'_, Option<(BlockKey, Packed)>>
        ensures { iter_rest result ≡ self.now }
    {
        self.places.iter()
    }

    // Adds the keys of the row's blocks.
    pub(crate) fn add_keys(&self, keys: &mut Vec<BlockKey>) -> Result<(), AllocError>
        ensures { OnOk result (keys.new.items ≡ keys.old.items ++ keys_in self.now) }
    {
        for place in &self.places {
            if let Some((key, _)) = place {
                keys.push(*key)?;
            }
        }
        Ok(())
    }

    // Adds the keys of those blocks of this row, which is the chunk's, that are active.
    pub(crate) fn add_active(
        &self,
        chunk: ChunkKey,
        camera: &Camera,
        pose: &Pose,
        keys: &mut Vec<BlockKey>,
    ) -> Result<(), AllocError>
        requires { IsRow chunk self.now }
        ensures { OnOk result (keys.new.items ≡ keys.old.items ++ filter (is_active camera.now pose.now) (keys_in self.now)) }
    {
        if self.held == 0 || !camera.may_hold_active(pose, chunk) {
            return Ok(());
        }
        self.test_each(camera, pose, keys)
    }

    // Tests each block of the row whether it is active, and adds its key if so.
    fn test_each(
        &self,
        camera: &Camera,
        pose: &Pose,
        keys: &mut Vec<BlockKey>,
    ) -> Result<(), AllocError>
        ensures { OnOk result (keys.new.items ≡ keys.old.items ++ filter (is_active camera.now pose.now) (keys_in self.now)) }
    {
        for place in &self.places {
            if let Some((key, _)) = place {
                if camera.active(pose, *key) {
                    keys.push(*key)?;
                }
            }
        }
        Ok(())
    }
}
