// The exported functions: each calls its method on the record's numbers (crate buffer_pool, src/lent.rt) with the entries lent where they
// lie, and stores what the call changed.
ghost use Rattle.std.specs.Prelude.{◌≡◌, []};
ghost use Rattle.buffer_pool.specs.Moves.{memories};
ghost use Rattle.buffer_pool_c.specs.Exports as spec;

use crate::record::Record;
use crate::results;
use crate::results::{Handle, PlaceResult, ReserveResult, TakeResult};
use buffer_pool::buffer_pool::BufferPool;
use buffer_pool::lent::Taking;
use buffer_pool::slice;

// `buffer_pool_created`: the record of a new pool.
#[repr(C)]
#[derive(Clone, Copy)]
pub struct NewResult {
    pub record: Record,
    pub refusal: u64,
}

// A new pool of so many slots: the pool memory is cleared. Refuses with 16 and 3.
#[unsafe(no_mangle)]
pub extern "C" fn buffer_pool_new(slots: usize, pool: &mut [u8], overflow: &[u8]) -> NewResult
    ensures { spec.left result.refusal result.record (memories pool.new overflow.now) [] ≡ spec.new slots (memories pool.old overflow.now) }
{
    let called = BufferPool::new(slots, pool, overflow);
    NewResult {
        record: Record::from(called.pool),
        refusal: called.refusal() as u64,
    }
}

// Room for `len` more bytes after the frame. Refuses with 1, 2 and 4.
#[unsafe(no_mangle)]
pub extern "C" fn buffer_pool_reserve(
    held: &mut Record,
    pool: &mut [u8],
    overflow: &mut [u8],
    len: u64,
) -> ReserveResult
    ensures { spec.left result held.new (memories pool.new overflow.new) [] ≡ spec.reserve held.old (memories pool.old overflow.old) len }
{
    match held.numbers().reserve(&held.entries, pool, overflow, len) {
        Ok(r) => {
            if r.clears {
                held.entries.clear();
            }
            held.store(r.numbers);
            results::reserved(r.place, r.changes)
        }
        Err(why) => results::reserve_refused(why),
    }
}

// The first `n` bytes of the reservation join the frame. Refuses with 1, 2 and 5.
#[unsafe(no_mangle)]
pub extern "C" fn buffer_pool_commit(
    held: &mut Record,
    pool: &[u8],
    overflow: &[u8],
    n: u64,
) -> PlaceResult
    ensures { spec.left result held.new (memories pool.now overflow.now) [] ≡ spec.commit held.old (memories pool.now overflow.now) n }
{
    let resizing = held.numbers().commit(&held.entries, pool, overflow, n);
    held.resize(resizing);
    results::resized(resizing)
}

// The frame keeps at most its first `n` bytes. Refuses with 1 and 2.
#[unsafe(no_mangle)]
pub extern "C" fn buffer_pool_truncate(
    held: &mut Record,
    pool: &[u8],
    overflow: &[u8],
    n: u64,
) -> PlaceResult
    ensures { spec.left result held.new (memories pool.now overflow.now) [] ≡ spec.truncate held.old (memories pool.now overflow.now) n }
{
    let resizing = held.numbers().truncate(&held.entries, pool, overflow, n);
    held.resize(resizing);
    results::resized(resizing)
}

// The frame becomes a slice of the pool, with the next serial of this caller, or is copied to the destination. Refuses with 1, 2, 12, 6
// and 8.
#[unsafe(no_mangle)]
pub extern "C" fn buffer_pool_take(
    held: &mut Record,
    pool: &[u8],
    overflow: &mut [u8],
    caller: u64,
    destination: &mut [u8],
) -> TakeResult
    ensures { spec.left result held.new (memories pool.now overflow.new) destination.new ≡ spec.take held.old (memories pool.now overflow.old) caller destination.old }
{
    match held
        .numbers()
        .take(&held.entries, pool, overflow, caller, destination)
    {
        Ok(Taking::Copied(copied, numbers)) => {
            held.store(numbers);
            results::copied(copied)
        }
        Ok(Taking::Pooled(handle, numbers)) => {
            held.entries.enter(handle);
            held.store(numbers);
            results::taken(handle)
        }
        Err(why) => results::take_refused(why),
    }
}

// The slot of the handle is free again; gives the refusal. Refuses with 1, 2 and 7.
#[unsafe(no_mangle)]
pub extern "C" fn buffer_pool_release(
    held: &mut Record,
    pool: &[u8],
    overflow: &[u8],
    h: Handle,
) -> u8
    ensures { spec.left result held.new (memories pool.now overflow.now) [] ≡ spec.release held.old (memories pool.now overflow.now) h }
{
    let handle = slice::Handle::from(h);
    match held
        .numbers()
        .release(&held.entries, pool, overflow, handle)
    {
        Ok(live) => {
            held.live = live as u32;
            0
        }
        Err(why) => why.number(),
    }
}

// Where the frame lies. Refuses with 1 and 2.
#[unsafe(no_mangle)]
pub extern "C" fn buffer_pool_frame(held: &Record, pool: &[u8], overflow: &[u8]) -> PlaceResult
    ensures { result ≡ spec.frame held.now (memories pool.now overflow.now) }
{
    results::view_result(held.numbers().frame_view(&held.entries, pool, overflow))
}

// Where the reservation lies. Refuses with 1 and 2.
#[unsafe(no_mangle)]
pub extern "C" fn buffer_pool_reservation(
    held: &Record,
    pool: &[u8],
    overflow: &[u8],
) -> PlaceResult
    ensures { result ≡ spec.reservation held.now (memories pool.now overflow.now) }
{
    results::view_result(
        held.numbers()
            .reservation_view(&held.entries, pool, overflow),
    )
}

// Where the slice of a handle lies. Refuses with 1, 2 and 7.
#[unsafe(no_mangle)]
pub extern "C" fn buffer_pool_slice(
    held: &Record,
    pool: &[u8],
    overflow: &[u8],
    h: Handle,
) -> PlaceResult
    ensures { result ≡ spec.slice held.now (memories pool.now overflow.now) h }
{
    let handle = slice::Handle::from(h);
    results::view_result(
        held.numbers()
            .slice_view(&held.entries, pool, overflow, handle),
    )
}
