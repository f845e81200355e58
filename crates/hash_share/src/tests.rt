ghost use Rattle.std.specs.Prelude.{◌≡◌, ◌<◌};
ghost use Rattle.std.specs.Thread.{IsSync};
ghost use Rattle.hash_share.specs.Seats.{Belongs};
ghost use Rattle.hash_share.specs.Steps.{IsFresh};

use super::*;
use spatial_hash::{Full, HashTable};
use std::alloc::Global;
use std::test::Fail;
use std::thread::{Threads, join};
use voxel_block::BlockKey;

fn is_send_and_sync<T: Send + Sync>(_value: &T) {}

fn is_send<T: Send>(_value: &T) {}

/// What `insert` answers for a key that is not held.
fn put(table: &mut HashTable, key: BlockKey, cell: u32) -> Option<Result<u32, Full>> {
    match table.find(key) {
        Some(_) => None,
        None => Some(table.insert(key, cell)),
    }
}

fn key(x: u8) -> BlockKey {
    BlockKey {
        x: 0,
        y: 0,
        z: i16::from(x),
    }
}

#[test]
fn two_seats_touch_one_key(rt: HostRuntime) -> Result<(), Fail> {
    let table = HashTable::make(rt.alloc(), 16, 4)?;
    let (share, mut first) = HashShare::share(rt.alloc(), &table, 2)?;
    is_send_and_sync(&share);
    is_send(&first);
    let mut second = share.split(&mut first, 1);
    assert_eq!(rt; (first.part(), second.part()), (1, 1));
    assert_eq!(rt; share.touch(&mut first, key(12)), Touched::New(16));
    assert_eq!(rt; share.touch(&mut second, key(12)), Touched::Old(16));
    assert_eq!(rt; share.touch(&mut second, key(13)), Touched::New(44));
    share.join(&mut first, second);
    assert_eq!(rt; first.part(), 2);
    let closed = share.close(first);
    let entries = closed.entries(rt.alloc())?;
    let wanted = [(key(12), u32::MAX), (key(13), u32::MAX)];
    assert_eq!(rt; entries.as_slice(), wanted.as_slice());
    Ok(())
}

#[test]
fn a_bucket_without_nodes_takes_four_keys(rt: HostRuntime) -> Result<(), Fail> {
    let table = HashTable::make(rt.alloc(), 1, 0)?;
    let (share, mut seat) = HashShare::share(rt.alloc(), &table, 1)?;
    let wanted = [
        Touched::New(0),
        Touched::New(1),
        Touched::New(2),
        Touched::New(3),
        Touched::Spent { drawn: 0 },
        Touched::Spent { drawn: 1 },
    ];
    for z in 0..6_u8 {
        assert_eq!(rt; share.touch(&mut seat, key(z)), wanted[usize::from(z)]);
    }
    assert_eq!(rt; share.touch(&mut seat, key(4)), Touched::Spent { drawn: 1 });
    assert_eq!(rt; share.touch(&mut seat, key(3)), Touched::Old(3));
    let closed = share.close(seat);
    assert_eq!(rt; closed.linked(), 0);
    Ok(())
}

#[test]
fn keys_go_on_in_a_chain(rt: HostRuntime) -> Result<(), Fail> {
    let mut table = HashTable::make(rt.alloc(), 1, 4)?;
    for z in 0..5_u8 {
        let cell = u32::from(z);
        assert_eq!(rt; put(&mut table, key(z), cell), Some(Ok(cell)));
    }
    let (share, mut first) = HashShare::share(rt.alloc(), &table, 2)?;
    let mut second = share.split(&mut first, 1);
    assert_eq!(rt; share.touch(&mut first, key(4)), Touched::Old(4));
    assert_eq!(rt; share.touch(&mut first, key(5)), Touched::New(5));
    assert_eq!(rt; share.touch(&mut second, key(5)), Touched::Old(5));
    assert_eq!(rt; share.touch(&mut second, key(6)), Touched::New(6));
    share.join(&mut first, second);
    let closed = share.close(first);
    assert_eq!(rt; closed.linked(), 3);
    for z in 0..7_u8 {
        assert_eq!(rt; closed.find(key(z)), Some(u32::from(z)));
    }
    Ok(())
}

/// Touches the keys 0 to 199, from key `first` on, and returns how many were new.
fn touch_all(share: &HashShare, seat: &mut TouchSeat, first: u8) -> u32
    requires { Belongs seat.old share.now }
    ensures { Belongs seat.new share.now × (seat.new.knows.part ≡ seat.old.knows.part) }
{
    let mut new = 0_u32;
    let mut z = first;
    for _ in 0..200_u8 {
        if let Touched::New(_) = share.touch(seat, key(z)) {
            new = new.wrapping_add(1);
        }
        z = if z < 199 { z + 1 } else { 0 };
    }
    new
}

/// Two seats touch all keys at once.
fn touch_by_two<R: Threads + Sync>(
    rt: &R,
    share: &HashShare,
    seat: TouchSeat,
    first: u8,
) -> (TouchSeat, u32)
    requires sync { IsSync R.row }
    requires seat { Belongs seat share.now × (seat.knows.part ≡ 2) × IsFresh seat.knows }
    ensures { Belongs result.0 share.now × (result.0.knows.part ≡ 2) }
{
    let mut seat = seat;
    let mut other = share.split(&mut seat, 1);
    let (taken, mine) = join(
        rt,
        move || -> (TouchSeat, u32)
            requires { Belongs other share.now × (other.knows.part ≡ 1) }
            ensures { Belongs result.0 share.entry.now × (result.0.knows.part ≡ 1) }
        {
            let new = touch_all(share, &mut other, first.wrapping_add(50));
            (other, new)
        },
        move || -> (TouchSeat, u32)
            requires { Belongs seat share.now × (seat.knows.part ≡ 1) }
            ensures { Belongs result.0 share.entry.now × (result.0.knows.part ≡ 1) }
        {
            let new = touch_all(share, &mut seat, first);
            (seat, new)
        },
    );
    let (mut seat, new) = mine;
    share.join(&mut seat, taken.0);
    (seat, new.wrapping_add(taken.1))
}

/// Four seats touch all keys at once.
fn touch_by_four<R: Threads + Sync>(rt: &R, share: &HashShare, seat: TouchSeat) -> (TouchSeat, u32)
    requires sync { IsSync R.row }
    requires seat { Belongs seat share.now × (seat.knows.part ≡ 4) × IsFresh seat.knows }
    ensures { Belongs result.0 share.now × (result.0.knows.part ≡ 4) }
{
    let mut seat = seat;
    let other = share.split(&mut seat, 2);
    let (taken, mine) = join(
        rt,
        move || -> (TouchSeat, u32)
            requires { IsSync R.row × Belongs other share.now × (other.knows.part ≡ 2) × IsFresh other.knows }
            ensures { Belongs result.0 share.entry.now × (result.0.knows.part ≡ 2) }
        { touch_by_two(rt, share, other, 100) },
        move || -> (TouchSeat, u32)
            requires { IsSync R.row × Belongs seat share.now × (seat.knows.part ≡ 2) × IsFresh seat.knows }
            ensures { Belongs result.0 share.entry.now × (result.0.knows.part ≡ 2) }
        { touch_by_two(rt, share, seat, 0) },
    );
    let (mut seat, new) = mine;
    share.join(&mut seat, taken.0);
    (seat, new.wrapping_add(taken.1))
}

/// A table of 8 buckets and 200 nodes with the even ones of the keys 0 to 39, each with its number for a cell.
fn some_keys(alloc: Global) -> Result<HashTable, Fail> {
    let mut table = HashTable::make(alloc, 8, 200)?;
    for z in 0..20_u8 {
        let _ = put(&mut table, key(2 * z), 2 * u32::from(z));
    }
    Ok(table)
}

#[test]
fn four_seats_touch_the_same_keys_at_once(rt: HostRuntime) -> Result<(), Fail> {
    let mut plain = some_keys(rt.alloc())?;
    let (share, seat) = HashShare::share(rt.alloc(), &plain, 4)?;
    let (seat, new) = touch_by_four(&rt, &share, seat);
    // Each of the 180 keys that the table lacked is placed once, whoever was first.
    assert_eq!(rt; new, 180);
    let closed = share.close(seat);
    for z in 0..200_u8 {
        let _ = put(&mut plain, key(z), u32::MAX);
    }
    let (entries, wanted) = (closed.entries(rt.alloc())?, plain.entries(rt.alloc())?);
    assert_eq!(rt; wanted.len(), 200);
    assert_eq!(rt; entries.as_slice(), wanted.as_slice());
    assert_eq!(rt; closed.linked(), plain.linked());
    Ok(())
}
