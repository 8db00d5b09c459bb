// The soundness test, of a record's numbers with its starts and lengths lent: three parts, of which the first two go before `guard`
// (src/guard.rt) and the third into it, with one pass over the slots.
ghost use Rattle.std.specs.Prelude.{◌≡◌, ◌+◌, ◌-◌, ◌≤◌, ◌<◌, ◌^◌};
ghost use Rattle.buffer_pool.specs.Record.{most_slots};
ghost use Rattle.buffer_pool.specs.Numbers.{bare};
ghost use Rattle.buffer_pool.specs.Soundness as spec;
ghost use Rattle.buffer_pool.specs.SlotPass.{ordered, word_fits, is_back_within, front_counts, mode_numbers, numbers_sound, front_own, front_sound, bytes_sound, span_of, slots_sound, parts_sound};

use crate::buffer_pool::{BufferPool, Entries, PoolFront, PoolMode};
use crate::inner_memory::in_bounds;
use crate::numbers::{Numbers, Tested};
use crate::slice::SharedState;

// Do the live slots after slot `first`, up to slot `last`, lie in order, none empty, from `from` up to `to`?
fn in_order(
    entries: &Entries,
    state: SharedState,
    first: usize,
    last: usize,
    from: u64,
    to: u64,
) -> bool
    requires { last ≤ state.slots }
    ensures { result ≡ ordered state.slots entries.now.starts entries.now.lengths state.live (last - first) first from to }
{
    let mut end = from;
    for i in first..last {
        if state.is_live(i + 1) {
            let start = entries.starts[i] as u64;
            let len = entries.lengths[i] as u64;
            if len == 0 {
                return false;
            }
            if start < end {
                return false;
            }
            end = start + len;
        }
    }
    end <= to
}

// Can a pool have so many slots?
pub(crate) fn is_count(slots: usize) -> bool
    ensures { result ≡ spec.is_slot_count slots }
{
    slots == BufferPool::POOL_CAPACITY || slots == BufferPool::MOST_SLOTS
}

// Is the slot count 8 or 16, and the live word that wide? That the arrays have a place for every slot, the types say.
fn shaped(n: Numbers) -> bool
    ensures { result ≡ word_fits n.slots n.live }
{
    match n.slots {
        BufferPool::MOST_SLOTS => true,
        BufferPool::POOL_CAPACITY => n.live < 256,
        _ => false,
    }
}

// Is no memory longer than the limit, does the kept length lie in the overflow, and has a pool of no bytes no slots in its back?
fn limited(n: Numbers) -> bool
    ensures { result ≡ bytes_sound n }
{
    n.capacity <= BufferPool::BYTE_LIMIT
        && n.overflow <= BufferPool::BYTE_LIMIT
        && n.kept <= n.overflow
        && (0 < n.capacity || n.back_len == 0)
}

// Does the back lie in the slots?
fn counted(n: Numbers) -> bool
    ensures { result ≡ is_back_within n }
{
    n.back_start < n.slots && n.back_len <= n.slots - n.back_start
}

// Do frame and reservation end within `bytes`, and take a slot only where one is left?
fn framed_within(n: Numbers, bytes: u64, slot_left: bool) -> bool
    ensures { result ≡ spec.framed_within (bare n) bytes slot_left }
{
    in_bounds(bytes, n.raw_offset, n.raw_len, n.reserved)
        && (slot_left || (n.raw_len == 0 && n.reserved == 0))
}

// That the back lies in the slots is what `counted` found just before. The struct that says so is `Tested`, which is built where the
// whole first part is through.

// The numbers of a pool in the back.
fn back_numbers(n: Numbers) -> bool
    requires { n.back_start + n.back_len ≤ n.slots }
    ensures { result ≡ spec.back_numbers n.slots (bare n) }
{
    let last = n.back_start + n.back_len;
    n.used == last && n.cursor == 0 && framed_within(n, n.capacity, last < n.slots)
}

// The numbers of a pool in the front.
fn front_numbers(n: Numbers, f: PoolFront) -> bool
    requires { n.back_start + n.back_len ≤ n.slots }
    ensures { result ≡ front_counts n f }
{
    let slots = f.back_start;
    let len = f.len;
    n.back_start + n.back_len == n.slots
        && 1 <= slots
        && slots <= n.back_start
        && len <= slots
        && n.used == len
}

// The numbers of a pool in the overflow.
fn alloc_numbers(n: Numbers) -> bool
    ensures { result ≡ spec.alloc_sound (bare n) }
{
    n.raw_offset == 0 && n.raw_len == 0 && in_bounds(n.kept, n.cursor, n.reserved, 0)
}

// The numbers by the mode, but for the front's frame.
fn mode_numbers(n: Numbers) -> bool
    requires { n.back_start + n.back_len ≤ n.slots }
    ensures { result ≡ mode_numbers n.mode n }
{
    match n.mode {
        PoolMode::Back => back_numbers(n),
        PoolMode::Front(f) => front_numbers(n, f),
        PoolMode::Alloc => alloc_numbers(n),
    }
}

// The first part: the numbers, but for the front's frame.
pub(crate) fn numbers_sound(n: Numbers) -> bool
    ensures { result ≡ numbers_sound n }
{
    shaped(n) && counted(n) && mode_numbers(n)
}

// The front's frame, and its own slots, before the frame.
fn front_own(n: Numbers, entries: &Entries, f: PoolFront) -> bool
    requires { (f.back_start ≤ n.slots) × (n.slots ≤ most_slots) × (n.live < 2 ^ n.slots) }
    ensures { result ≡ front_own n entries.now.starts entries.now.lengths f }
{
    let state = SharedState {
        slots: n.slots,
        live: n.live,
    };
    let own = state.last_front(f.back_start);
    n.cursor == 0
        && f.byte_capacity <= n.capacity
        && framed_within(n, f.byte_capacity, f.len < f.back_start)
        && own <= f.len
        && in_order(entries, state, 0, own, 0, n.raw_offset)
}

// The second part, where the first gave `sound`: a front's frame and own slots.
pub(crate) fn front_sound(n: Numbers, sound: bool, entries: &Entries) -> bool
    requires { sound ≡ numbers_sound n }
    ensures { result ≡ front_sound n entries.now.starts entries.now.lengths }
{
    if !sound {
        return false;
    }
    match n.mode {
        PoolMode::Back | PoolMode::Alloc => true,
        PoolMode::Front(f) => front_own(n, entries, f),
    }
}

// The slots after slot `first`, and the bytes that they lie in.
#[derive(Clone, Copy)]
struct Span {
    first: usize,
    from: u64,
    to: u64,
}

// What the last pass goes over: all slots, but in the front those above its own.
fn span_of(n: Numbers) -> Span
    ensures { result ≡ span_of n.mode n }
{
    match n.mode {
        PoolMode::Back => Span {
            first: 0,
            from: 0,
            to: n.raw_offset,
        },
        PoolMode::Front(f) => Span {
            first: f.back_start,
            from: f.byte_capacity,
            to: n.capacity,
        },
        PoolMode::Alloc => Span {
            first: 0,
            from: 0,
            to: n.capacity,
        },
    }
}

// The third part: what is left of the numbers, and the slots up to the last live one.
pub(crate) fn slots_sound(t: Tested, entries: &Entries) -> bool
    ensures { result ≡ slots_sound t.n entries.now.starts entries.now.lengths }
{
    let n = t.n;
    let state = SharedState {
        slots: n.slots,
        live: n.live,
    };
    let last = n.slots - state.trailing();
    let r = span_of(n);
    limited(n)
        && last <= n.back_start + n.back_len
        && in_order(entries, state, r.first, last, r.from, r.to)
}

// The three parts together.
fn parts_sound(n: Numbers, entries: &Entries) -> bool
    ensures { result ≡ parts_sound n entries.now.starts entries.now.lengths }
{
    front_sound(n, numbers_sound(n), entries) && slots_sound(Tested { n }, entries)
}

impl BufferPool {
    // Does the record pass the soundness test?
    pub fn is_sound(self) -> bool
        ensures { result ≡ spec.sound self.slots self }
    {
        let entries = self.entries();
        parts_sound(self.numbers(), &entries)
    }
}
