// The record as C holds it, and the pool's own record in it.
ghost use Rattle.std.specs.Prelude.{◌≡◌};
ghost use Rattle.buffer_pool_c.specs.Record as spec;

use buffer_pool::buffer_pool::{BufferPool, Entries, PoolFront, PoolMode};
use buffer_pool::lent::Resizing;
use buffer_pool::numbers::Numbers;
use buffer_pool::refusals::Refusal;

// `buffer_pool_record`: the fields of the pool's record, its mode as a number and the front's three numbers beside it, which C has no
// enum for. It has no padding: `live` and `mode` fill one word.
#[repr(C)]
#[derive(Clone, Copy)]
pub struct Record {
    pub capacity: u64,
    pub overflow: u64,
    pub slots: usize,
    pub entries: Entries,
    pub live: u32,
    pub mode: u32,
    pub back_start: usize,
    pub back_len: usize,
    pub used: usize,
    pub raw_offset: u64,
    pub raw_len: u64,
    pub front_back_start: usize,
    pub front_byte_capacity: u64,
    pub front_len: usize,
    pub kept: u64,
    pub cursor: u64,
    pub reserved: u64,
}

// A live word is below this, as the pool's own word has 16 bits. That it has no bit beyond the record's own slots is for the pool's
// soundness test, which refuses with 1 as well.
const LIVE_LIMIT: u32 = 1 << BufferPool::MOST_SLOTS;

// The mode with this number; for a number that is none, the overflow. No `From`: neither type is of this crate.
fn mode_of(number: u32, front: PoolFront) -> PoolMode
    ensures { result ≡ spec.mode_of number front }
{
    match number {
        0 => PoolMode::Back,
        1 => PoolMode::Front(front),
        _ => PoolMode::Alloc,
    }
}

// The number of a mode, for C.
fn mode_number(mode: PoolMode) -> u32
    ensures { result ≡ spec.mode_number mode }
{
    match mode {
        PoolMode::Back => 0,
        PoolMode::Front(_) => 1,
        PoolMode::Alloc => 2,
    }
}

// The numbers of a front; in the other modes, those that stood there before.
fn front_of(mode: PoolMode, before: PoolFront) -> PoolFront
    ensures { result ≡ spec.front_of mode before }
{
    match mode {
        PoolMode::Front(front) => front,
        PoolMode::Back | PoolMode::Alloc => before,
    }
}

impl Record {
    // The numbers of a front that the record holds.
    fn front(&self) -> PoolFront
        ensures { result ≡ spec.front_held self.now }
    {
        PoolFront {
            back_start: self.front_back_start,
            byte_capacity: self.front_byte_capacity,
            len: self.front_len,
        }
    }

    // Can the record be a pool's: does its live word fit the pool's 16 bits, and is its mode the number of one?
    fn is_known(&self) -> bool
        ensures { result ≡ spec.known self.now }
    {
        self.live < LIVE_LIMIT && self.mode <= 2
    }

    // The slot count of a pool's record, and 0 of any other, which is no pool's count: every call refuses it with 1.
    fn slots_known(&self) -> usize
        ensures { result ≡ spec.slots_of self.now }
    {
        if self.is_known() { self.slots } else { 0 }
    }

    // The live slots of a pool's record.
    fn live_slots(&self) -> u16
        ensures { result ≡ spec.live_of self.now }
    {
        if self.live < LIVE_LIMIT {
            self.live as u16
        } else {
            0
        }
    }

    // The numbers of the pool's record.
    pub(crate) fn numbers(&self) -> Numbers
        ensures { result ≡ spec.numbers_of self.now }
    {
        Numbers {
            capacity: self.capacity,
            overflow: self.overflow,
            slots: self.slots_known(),
            live: self.live_slots(),
            back_start: self.back_start,
            back_len: self.back_len,
            used: self.used,
            raw_offset: self.raw_offset,
            raw_len: self.raw_len,
            mode: mode_of(self.mode, self.front()),
            kept: self.kept,
            cursor: self.cursor,
            reserved: self.reserved,
        }
    }

    // A commit or a truncate that is done stores the frame's length and spends the reservation; a refused one stores nothing.
    pub(crate) fn resize(&mut self, resizing: Result<Resizing, Refusal>)
        ensures { self.new ≡ spec.resized self.old resizing }
    {
        if let Ok(r) = resizing {
            self.raw_len = r.raw_len;
            self.cursor = r.cursor;
            self.reserved = 0;
        }
    }

    // The numbers that a call left become the record's.
    pub(crate) fn store(&mut self, n: Numbers)
        ensures { self.new ≡ spec.stored self.old n }
    {
        let front = front_of(n.mode, self.front());
        self.capacity = n.capacity;
        self.overflow = n.overflow;
        self.slots = n.slots;
        self.live = n.live as u32;
        self.mode = mode_number(n.mode);
        self.back_start = n.back_start;
        self.back_len = n.back_len;
        self.used = n.used;
        self.raw_offset = n.raw_offset;
        self.raw_len = n.raw_len;
        self.front_back_start = front.back_start;
        self.front_byte_capacity = front.byte_capacity;
        self.front_len = front.len;
        self.kept = n.kept;
        self.cursor = n.cursor;
        self.reserved = n.reserved;
    }
}

// The record that C holds of a new pool.
impl From<BufferPool> for Record {
    fn from(p: BufferPool) -> Self
        ensures { result ≡ spec.record_of spec.no_front p }
    {
        let mode = p.mode;
        let front = front_of(
            mode,
            PoolFront {
                back_start: 0,
                byte_capacity: 0,
                len: 0,
            },
        );
        Record {
            capacity: p.capacity,
            overflow: p.overflow,
            slots: p.slots,
            entries: p.entries(),
            live: p.live as u32,
            mode: mode_number(mode),
            back_start: p.back_start,
            back_len: p.back_len,
            used: p.used,
            raw_offset: p.raw_offset,
            raw_len: p.raw_len,
            front_back_start: front.back_start,
            front_byte_capacity: front.byte_capacity,
            front_len: front.len,
            kept: p.kept,
            cursor: p.cursor,
            reserved: p.reserved,
        }
    }
}
