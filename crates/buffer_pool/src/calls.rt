// The calls (SPECIFICATION 7). Each takes the record by value and both lent memories, refuses in the order of SPECIFICATION 3.3 and 3.4
// (unsound, wrong length, then its own), and gives the record back with the answer; a refused call changes nothing. What a call decides
// and moves is that of lent.rt; here its record is put together, once for done and refused: with a record in each arm of a `match` a call
// took 46 ns where it takes 27 (docs/BENCHMARKS.md).
ghost use Rattle.std.specs.Prelude.{◌≡◌, []};
ghost use Rattle.buffer_pool.specs.Lent as lent;
ghost use Rattle.buffer_pool.specs.Moves.{memories};
ghost use Rattle.buffer_pool.specs.Steps as steps;
ghost use Rattle.buffer_pool.specs.Calls as spec;

use crate::buffer_pool::{Answer, BufferPool, Called};
use crate::inner_memory::fill_zero;
use crate::lent::{Resizing, Taking};
use crate::refusals::Refusal;
use crate::slice::Handle;
use crate::sound::is_count;

// A refused call leaves the record.
fn refused(p: BufferPool, why: Refusal) -> Called
    ensures { result ≡ steps.refused p why }
{
    Called {
        pool: p,
        answer: Err(why),
    }
}

// What a commit or a truncate leaves and answers.
fn resized(p: BufferPool, resizing: Result<Resizing, Refusal>) -> Called
    ensures { result ≡ lent.resize_called p resizing }
{
    let mut q = p;
    let answer = match resizing {
        Ok(r) => {
            q.raw_len = r.raw_len;
            q.cursor = r.cursor;
            q.reserved = 0;
            Ok(Answer::Framed(r.place))
        }
        Err(why) => Err(why),
    };
    Called { pool: q, answer }
}

// A refused new: the record of a new pool of the Rust's count of slots, whose two lengths are 0.
fn new_refused(why: Refusal) -> Called
    ensures { result ≡ spec.new_refused_by why }
{
    refused(
        BufferPool::with_lengths(BufferPool::POOL_CAPACITY, 0, 0),
        why,
    )
}

impl BufferPool {
    // A new pool of 8 or 16 slots: the pool memory is cleared, the overflow stays as it is. Refuses with 16 if the count is another,
    // and with 3 if either memory is longer than the byte limit, and then gives the record of a new pool of 8 slots whose two lengths
    // are 0.
    pub fn new(slots: usize, pool: &mut [u8], overflow: &[u8]) -> Called
        ensures { spec.outcome result (memories pool.new overflow.now) [] ≡ spec.new slots (memories pool.old overflow.now) }
    {
        if !is_count(slots) {
            return new_refused(Refusal::WrongSlotCount);
        }
        let n = pool.len();
        let capacity = n as u64;
        let length = overflow.len() as u64;
        if BufferPool::BYTE_LIMIT < capacity {
            return new_refused(Refusal::MemoryTooLong);
        }
        if BufferPool::BYTE_LIMIT < length {
            return new_refused(Refusal::MemoryTooLong);
        }
        fill_zero(pool, 0, n);
        Called {
            pool: BufferPool::with_lengths(slots, capacity, length),
            answer: Ok(Answer::Done),
        }
    }

    // Room for `len` more bytes after the frame: gives the reservation's place and how often the mode changed. Refuses with 1, 2,
    // and with 4 if the overflow would be used and is too short for frame and reservation. Bytes move only once that is known.
    pub fn reserve(self, pool: &mut [u8], overflow: &mut [u8], len: u64) -> Called
        ensures { spec.outcome result (memories pool.new overflow.new) [] ≡ spec.reserve self.slots self (memories pool.old overflow.old) len }
    {
        let numbers = self.numbers();
        let mut entries = self.entries();
        let (n, answer) = match numbers.reserve(&entries, pool, overflow, len) {
            Ok(r) => {
                if r.clears {
                    entries.clear();
                }
                (r.numbers, Ok(Answer::Reserved(r.place, r.changes)))
            }
            Err(why) => (numbers, Err(why)),
        };
        Called {
            pool: n.filled(&entries),
            answer,
        }
    }

    // Commit and truncate differ in the call of lent.rt that they make; what they do with its answer is `resized`.

    // The first `n` bytes of the reservation join the frame: gives the frame's place. Refuses with 1, 2, and with 5 if `n` exceeds
    // the reservation.
    pub fn commit(self, pool: &[u8], overflow: &[u8], n: u64) -> Called
        ensures { spec.outcome result (memories pool.now overflow.now) [] ≡ spec.commit self.slots self (memories pool.now overflow.now) n }
    {
        let entries = self.entries();
        resized(self, self.numbers().commit(&entries, pool, overflow, n))
    }

    // The frame keeps at most its first `n` bytes: gives the frame's place. Refuses with 1 and 2.
    pub fn truncate(self, pool: &[u8], overflow: &[u8], n: u64) -> Called
        ensures { spec.outcome result (memories pool.now overflow.now) [] ≡ spec.truncate self.slots self (memories pool.now overflow.now) n }
    {
        let entries = self.entries();
        resized(self, self.numbers().truncate(&entries, pool, overflow, n))
    }

    // The frame is finished: gives the handle of a slice of the pool, with the caller's next serial, or copies a frame of the
    // overflow to the start of `destination` and gives its length; an empty frame gives length 0. Refuses with 1, 2, with 12 if the
    // caller is above 3, with 6 if a frame of the overflow is longer than `destination`, and with 8 if all serials are given to the
    // caller.
    pub fn take(
        self,
        pool: &[u8],
        overflow: &mut [u8],
        caller: u64,
        destination: &mut [u8],
    ) -> Called
        ensures { spec.outcome result (memories pool.now overflow.new) destination.new ≡ spec.take self.slots self (memories pool.now overflow.old) caller destination.old }
    {
        let numbers = self.numbers();
        let mut entries = self.entries();
        let (n, answer) = match numbers.take(&entries, pool, overflow, caller, destination) {
            Ok(Taking::Copied(copied, n)) => (n, Ok(Answer::Copied(copied))),
            Ok(Taking::Pooled(handle, n)) => {
                entries.enter(handle);
                (n, Ok(Answer::Taken(handle)))
            }
            Err(why) => (numbers, Err(why)),
        };
        Called {
            pool: n.filled(&entries),
            answer,
        }
    }

    // The slot of the handle is free again. Refuses with 1, 2, and with 7 if the handle names no live slice.
    pub fn release(self, pool: &[u8], overflow: &[u8], h: Handle) -> Called
        ensures { spec.outcome result (memories pool.now overflow.now) [] ≡ spec.release self.slots self (memories pool.now overflow.now) h }
    {
        let entries = self.entries();
        let mut q = self;
        let answer = match self.numbers().release(&entries, pool, overflow, h) {
            Ok(live) => {
                q.live = live;
                Ok(Answer::Done)
            }
            Err(why) => Err(why),
        };
        Called { pool: q, answer }
    }
}
