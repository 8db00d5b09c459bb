// The pool's record, its modes and what its calls answer (buffer_pool/mod.rs of the Rust).
ghost use Rattle.std.specs.Prelude.{◌≡◌};
ghost use Rattle.buffer_pool.specs.Record.{new_record};
ghost use Rattle.buffer_pool.specs.Numbers.{entered, cleared};
ghost use Rattle.buffer_pool.specs.Values.{no_place, no_handle, values};

use crate::refusals::Refusal;
use crate::slice::Handle;

// The front part of the pool. Its slots are those up to `back_start`, its bytes those below `byte_capacity`, and `len` of
// its slots are used.
#[derive(Clone, Copy)]
pub struct PoolFront {
    pub back_start: usize,
    pub byte_capacity: u64,
    pub len: usize,
}

// Where the frame is gathered (SPECIFICATION 1.10): after the slices of the back (B), in the front (F), or in the overflow (A).
#[derive(Clone, Copy)]
pub enum PoolMode {
    Back,
    Front(PoolFront),
    Alloc,
}

// The pool's record. The two memories that it speaks of are lent to each call: two parameters and no struct, since C lends them apart and
// most calls write one and read the other. The arrays stand behind whole words: a copy of the record then moves them at even places
// (docs/BENCHMARKS.md). They are not one field `Entries`: with it a call by value took 65 to 90 ns where it took 46.
#[derive(Clone, Copy)]
pub struct BufferPool {
    // the lengths of the pool memory and of the overflow
    pub capacity: u64,
    pub overflow: u64,

    // how many slots the pool has: 8 or 16
    pub slots: usize,

    // for each slot the slice that was last taken there and its caller (entries above `slots` never matter), for each caller how many
    // serials it was given, and the live slots: slot p is bit `slots` - p
    pub starts: [u32; BufferPool::MOST_SLOTS],
    pub lengths: [u32; BufferPool::MOST_SLOTS],
    pub serials: [u32; BufferPool::MOST_SLOTS],
    pub given: [u32; BufferPool::CALLERS],
    pub callers: [u8; BufferPool::MOST_SLOTS],
    pub live: u16,

    // PoolBack: the back begins after slot `back_start` and has `back_len` slots
    pub back_start: usize,
    pub back_len: usize,

    // InnerMemory: how many slots are used, and the frame's place in the pool
    pub used: usize,
    pub raw_offset: u64,
    pub raw_len: u64,

    pub mode: PoolMode,

    // the overflow, as the Rust's `Vec`: the length that is kept, and the length of the frame in it
    pub kept: u64,
    pub cursor: u64,

    // the length of the last reservation, 0 once it is spent
    pub reserved: u64,
}

// The arrays of a record, as they are lent to a call: for each slot the slice that was last taken there and its caller, for each caller
// how many serials it was given. Arrays, and not an array of entries: the record that C holds has them so (c/buffer_pool.h).
#[repr(C)]
#[derive(Clone, Copy)]
pub struct Entries {
    pub starts: [u32; BufferPool::MOST_SLOTS],
    pub lengths: [u32; BufferPool::MOST_SLOTS],
    pub serials: [u32; BufferPool::MOST_SLOTS],
    pub given: [u32; BufferPool::CALLERS],
    pub callers: [u8; BufferPool::MOST_SLOTS],
}

// One of the two lent memories.
#[derive(Clone, Copy)]
pub enum Memory {
    Pool,
    Overflow,
}

// A range of one memory.
#[derive(Clone, Copy)]
pub struct Place {
    pub memory: Memory,
    pub start: u64,
    pub length: u64,
}

// What a call answers.
#[derive(Clone, Copy)]
pub enum Answer {
    // new and release: done
    Done,

    // reserve: the reservation, and how often the mode changed
    Reserved(Place, u32),

    // commit and truncate: the frame
    Framed(Place),

    // take: a slice of the pool
    Taken(Handle),

    // take: this many bytes went to the destination, 0 for an empty frame
    Copied(u64),
}

// A call's record, and its answer or why it is refused: then nothing was changed.
#[derive(Clone, Copy)]
pub struct Called {
    pub pool: BufferPool,
    pub answer: Result<Answer, Refusal>,
}

// What a call answers, value by value. Of what the answer does not tell, a number is 0, the place empty and the handle that of no slot.
impl Called {
    // The number of the refusal, or 0.
    pub fn refusal(&self) -> u8
        ensures { result ≡ (values self.now.answer).number }
    {
        match self.answer {
            Ok(_) => 0,
            Err(why) => why.number(),
        }
    }

    // The reservation, or the frame.
    pub fn place(&self) -> Place
        ensures { result ≡ (values self.now.answer).place }
    {
        match self.answer {
            Ok(Answer::Reserved(place, _)) => place,
            Ok(Answer::Framed(place)) => place,
            _ => no_place(),
        }
    }

    // The handle of a slice.
    pub fn handle(&self) -> Handle
        ensures { result ≡ (values self.now.answer).handle }
    {
        match self.answer {
            Ok(Answer::Taken(handle)) => handle,
            _ => no_handle(),
        }
    }

    // How many bytes went to the destination.
    pub fn copied(&self) -> u64
        ensures { result ≡ (values self.now.answer).length }
    {
        match self.answer {
            Ok(Answer::Copied(length)) => length,
            _ => 0,
        }
    }

    // How often the mode changed.
    pub fn changes(&self) -> u32
        ensures { result ≡ (values self.now.answer).changes }
    {
        match self.answer {
            Ok(Answer::Reserved(_, changes)) => changes,
            _ => 0,
        }
    }
}

impl Entries {
    // The entry of a slice that is taken, and its caller's count of serials. A handle without a slot or a caller of the arrays leaves
    // everything.
    pub fn enter(&mut self, h: Handle)
        ensures { self.new ≡ entered self.old h }
    {
        let slot = h.slot as usize;
        let caller = h.caller as usize;
        if slot < 1 || BufferPool::MOST_SLOTS < slot || BufferPool::CALLERS <= caller {
            return;
        }
        self.starts[slot - 1] = h.start;
        self.lengths[slot - 1] = h.length;
        self.serials[slot - 1] = h.serial;
        self.callers[slot - 1] = h.caller;
        self.given[caller] = h.serial;
    }

    // All starts and lengths become 0, those above the slot count too.
    pub fn clear(&mut self)
        ensures { self.new ≡ cleared self.old }
    {
        self.starts = [0; BufferPool::MOST_SLOTS];
        self.lengths = [0; BufferPool::MOST_SLOTS];
    }
}

// No place: the empty one at the pool memory's start.
pub(crate) fn no_place() -> Place
    ensures { result ≡ no_place }
{
    Place {
        memory: Memory::Pool,
        start: 0,
        length: 0,
    }
}

// No handle: that of no slot.
pub(crate) fn no_handle() -> Handle
    ensures { result ≡ no_handle }
{
    Handle {
        slot: 0,
        start: 0,
        length: 0,
        serial: 0,
        caller: 0,
    }
}

impl BufferPool {
    // The Rust's count of slots.
    pub const POOL_CAPACITY: usize = 8;

    // The other count, and the length of the arrays.
    pub const MOST_SLOTS: usize = 16;

    // The greatest length of a lent memory.
    pub const BYTE_LIMIT: u64 = 1_048_576;

    // How many callers have serials of their own: 0 to 3.
    pub const CALLERS: usize = 4;

    // The record of a new pool of so many slots, with memories of these lengths.
    pub fn with_lengths(slots: usize, capacity: u64, overflow: u64) -> Self
        ensures { result ≡ new_record slots capacity overflow }
    {
        BufferPool {
            capacity,
            overflow,
            slots,
            live: 0,
            starts: [0; BufferPool::MOST_SLOTS],
            lengths: [0; BufferPool::MOST_SLOTS],
            serials: [0; BufferPool::MOST_SLOTS],
            callers: [0; BufferPool::MOST_SLOTS],
            given: [0; BufferPool::CALLERS],
            back_start: 0,
            back_len: 0,
            used: 0,
            raw_offset: 0,
            raw_len: 0,
            mode: PoolMode::Back,
            kept: 0,
            cursor: 0,
            reserved: 0,
        }
    }
}
