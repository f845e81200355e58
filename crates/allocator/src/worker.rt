ghost use Rattle.std.specs.Prelude.{◌≡◌, ◌<◌, ◌≤◌, IfOk, Ok, None};
ghost use Rattle.band_walk.specs.Bands.{row_blocks};
ghost use Rattle.hash_share.specs.Seats.{Belongs};
ghost use Rattle.hash_share.specs.Steps.{IsFresh};
ghost use Rattle.allocator.specs.Work.{Adds, HasNoted, HasWorked, IsDealt, IsSpentAt, TouchedAll};

use crate::rows::Rows;
use crate::touching::touch_all;
use band_walk::Memo;
use fusion_core::Gate;
use hash_share::{HashShare, TouchSeat};
use std::alloc::Global;
use voxel_block::{BlockKey, NoMemory};

/// A worker of a rows.
#[derive(Drop)]
pub(crate) struct Worker {
    number: u32,
    seat: TouchSeat,
    /// Some of the keys that it has touched, which are quicker to find here.
    memo: Memo,
    /// Keys of one row.
    keys: Vec<BlockKey>,
}

impl Worker {
    /// A worker of this number at this seat, which has done nothing.
    pub(crate) fn make(alloc: Global, number: u32, seat: TouchSeat) -> Result<Worker, NoMemory>
        ensures number { IfOk result (λ w. w.number ≡ number) }
        ensures seat { IfOk result (λ w. w.seat ≡ seat) }
        ensures noted { IfOk result (λ w. HasNoted w.memo w.seat.knows) }
    {
        Ok(Worker {
            number,
            seat,
            memo: Memo::make(alloc)?,
            keys: Vec::new(alloc),
        })
    }

    /// Takes the worker's rows in order, up to the first with a key for which no node is left, and returns the
    /// number that was drawn there.
    pub(crate) fn take_rows<B: Rows, G: Gate>(
        &mut self,
        share: &HashShare,
        rows: &B,
        workers: u32,
        gate: &G,
    ) -> Result<Option<u64>, NoMemory>
        requires seat { Belongs self.old.seat share.now × (self.old.seat.knows.part ≡ 1) × IsFresh self.old.seat.knows }
        requires noted { HasNoted self.old.memo self.old.seat.knows }
        requires number { self.old.number < workers }
        ensures { IfOk result (λ spent. HasWorked share.now (B.shown rows.now) workers self.old.number 1 self.new.seat spent) }
    {
        for v in 0..rows.height() {
            let spent = self.take_row(share, rows, workers, gate, v)?;
            if spent.is_some() {
                return Ok(spent);
            }
        }
        Ok(None)
    }

    /// Takes a row, if it is one of the worker's: passes the gate, and touches the keys of the row up to the
    /// first for which no node is left. Returns the number that was drawn there.
    fn take_row<B: Rows, G: Gate>(
        &mut self,
        share: &HashShare,
        rows: &B,
        workers: u32,
        gate: &G,
        v: u32,
    ) -> Result<Option<u64>, NoMemory>
        requires belongs { Belongs self.old.seat share.now }
        requires row { v < (B.shown rows.now).depths.height }
        requires workers { 1 ≤ workers }
        requires noted { HasNoted self.old.memo self.old.seat.knows }
        ensures belongs { IfOk result (λ _. Belongs self.new.seat share.now) }
        ensures part { IfOk result (λ _. self.new.seat.knows.part ≡ self.old.seat.knows.part) }
        ensures number { self.new.number ≡ self.old.number }
        ensures adds { IfOk result (λ _. Adds (row_blocks (B.shown rows.now) v) self.old.seat.knows self.new.seat.knows) }
        ensures all { result ≡ Ok None → IsDealt workers self.old.number 1 v → TouchedAll (row_blocks (B.shown rows.now) v) self.new.seat.knows }
        ensures noted { result ≡ Ok None → HasNoted self.new.memo self.new.seat.knows }
        ensures spent { IfOk result (λ s. IsSpentAt share.now.start.nodes self.new.seat.knows s) }
    {
        if v % workers != self.number {
            return Ok(None);
        }
        gate.enter(self.number, v);
        rows.new_keys(v, &mut self.memo, &mut self.keys)?;
        Ok(touch_all(share, &mut self.seat, &self.keys))
    }

    /// The seat of a worker whose work is done.
    pub(crate) fn into_seat(self) -> TouchSeat
        ensures { result ≡ self.seat }
    {
        self.seat
    }
}
