// What a run lends to the calls of its pool, and the calls on it.
ghost use Rattle.std.specs.Prelude.{◌≡◌, ◌+◌, ◌≤◌, ◌^◌, length};
ghost use Rattle.std.proofs.lemmas.List.Edits.{sets};

use crate::text::Writer;
use buffer_pool::buffer_pool::{BufferPool, Called, PoolMode};
use buffer_pool::slice::Handle;
use trace::{Event, Kind};

// What a run lends to the calls of its pool: the two memories, and the destination of its takes.
#[derive(Drop)]
pub(crate) struct Lent<'a> {
    pub(crate) pool: &'a mut [u8],
    pub(crate) overflow: &'a mut [u8],
    pub(crate) destination: &'a mut [u8],
    ghost small: { (length pool.now ≤ 2 ^ 32) × (length overflow.now ≤ 2 ^ 32) },
}

impl Lent<'_> {
    ghost use Rattle.buffer_pool.specs.Calls as calls;
    ghost use Rattle.replay.specs.Run as spec;

    // Bytes into the reservation, from its start on.
    pub(crate) fn fill(&mut self, r: &BufferPool, text: &[u8])
        requires { length text.now ≤ 2 ^ 32 }
        ensures memory { spec.memory_of self.new ≡ spec.filled r.now text.now (spec.memory_of self.old) }
        ensures destination { self.new.destination.now ≡ self.old.destination.now }
    {
        match r.mode {
            PoolMode::Back | PoolMode::Front(_) => fill_at(
                self.pool,
                r.raw_offset,
                r.raw_len,
                text,
            ),
            PoolMode::Alloc => fill_at(self.overflow, 0, r.cursor, text),
        }
    }

    // The call of an event; a take is by the event's caller, and a release takes the handle.
    pub(crate) fn call(&mut self, r: BufferPool, e: Event, h: Handle) -> Called
        ensures { calls.outcome result (spec.memory_of self.new) self.new.destination.now ≡ spec.call_of r (spec.memory_of self.old) self.old.destination.now e h }
    {
        let n = e.number as u64;
        let pool = &mut *self.pool;
        let overflow = &mut *self.overflow;
        let destination = &mut *self.destination;
        match Kind::try_from(e.kind).unwrap_or(Kind::Release) {
            Kind::Reserve => r.reserve(pool, overflow, n),
            Kind::Commit => r.commit(pool, overflow, n),
            Kind::Take => r.take(pool, overflow, e.caller as u64, destination),
            Kind::Truncate => r.truncate(pool, overflow, n),
            Kind::Release => r.release(pool, overflow, h),
        }
    }
}

// Bytes into a memory, `len` bytes after `start`. What would lie past its end is left out.
fn fill_at(memory: &mut [u8], start: u64, len: u64, text: &[u8])
    requires { (length memory.old ≤ 2 ^ 32) × (length text.now ≤ 2 ^ 32) }
    ensures { memory.new ≡ sets memory.old (start + len) text.now }
{
    let n = memory.len() as u64;
    if n < start {
        return;
    }
    if n - start < len {
        return;
    }
    let mut w = Writer::new(memory, (start + len) as usize);
    w.put_some(text);
}
