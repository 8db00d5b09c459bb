// The back of the pool: its tail and head cleared, and a frame placed there (pool_back.rs of the Rust).
ghost use Rattle.std.specs.Prelude.{◌≡◌, true, [], ◌+◌, ◌-◌, ◌≤◌};
ghost use Rattle.buffer_pool.specs.Record.{most_slots};
ghost use Rattle.buffer_pool.specs.Numbers.{numbers_of, plain, bare};
ghost use Rattle.buffer_pool.specs.declared.buffer_pool.PoolMode.TheVariants.{Back};
ghost use Rattle.buffer_pool.specs.Placing.{drops, clearable, tail_start, tail_fits, tail_cleared, head_fits, head_cleared_to, head_cleared, back_fits, back_layer};
ghost use Rattle.buffer_pool.specs.Deciding.{Worded, cleared_on, layer_of};

use crate::buffer_pool::{Entries, PoolFront, PoolMode};
use crate::inner_memory::{in_bounds, raw_offset_from_len};
use crate::numbers::{Numbers, Tested};
use crate::placing::{ModeChange, ModeStep, go_out};
use crate::slice::SharedState;

// d of SPECIFICATION 5.5: the freed slots at the end of the back.
pub(crate) fn element_to_drop(state: SharedState, back_start: usize) -> usize
    requires { back_start ≤ state.slots }
    ensures { result ≡ drops state.slots state.live back_start }
{
    let element_in_back = state.slots - back_start;
    element_in_back.min(state.trailing())
}

// Can the tail be cleared?
pub(crate) fn tail_is_clearable(t: Tested) -> bool
    ensures { result ≡ clearable t.n.slots (bare t.n) }
{
    let n = t.n;
    let back_start = n.back_start;
    let back_len = n.back_len;
    let state = SharedState {
        slots: n.slots,
        live: n.live,
    };
    element_to_drop(state, back_start) <= back_len && back_start + back_len == n.slots
}

// Where the frame goes by a tail clear that drops d slots.
fn tail_start(t: Tested, entries: &Entries, d: usize) -> u64
    requires { (d ≡ drops t.n.slots t.n.live t.n.back_start) × (d ≤ t.n.back_len) }
    ensures { result ≡ tail_start t.n.slots (plain t.n entries.now.starts entries.now.lengths) }
{
    let n = t.n;
    let back_start = n.back_start;
    let back_len = n.back_len;
    if d == back_len {
        let state = SharedState {
            slots: n.slots,
            live: n.live,
        };
        let last = state.last_front(back_start);
        return raw_offset_from_len(entries, last);
    }
    raw_offset_from_len(entries, back_start + back_len - d)
}

// The tail cleared, if frame and `len` fit after it.
pub(crate) fn try_clear_tail_unchecked(t: Tested, entries: &Entries, len: u64) -> Option<Numbers>
    requires { clearable t.n.slots (bare t.n) ≡ true }
    ensures { result ≡ cleared_on (tail_fits t.n.slots (plain t.n entries.now.starts entries.now.lengths) len) (numbers_of (tail_cleared t.n.slots (plain t.n entries.now.starts entries.now.lengths))) }
{
    let n = t.n;
    let back_start = n.back_start;
    let back_len = n.back_len;
    let state = SharedState {
        slots: n.slots,
        live: n.live,
    };
    if state.trailing() == 0 {
        return None;
    }
    let d = element_to_drop(state, back_start);
    let start = tail_start(t, entries, d);
    if !in_bounds(n.capacity, start, n.raw_len, len) {
        return None;
    }
    let left = back_len - d;
    Some(n.placed(PoolMode::Back, back_start, left, back_start + left, start))
}

// The front of f slots and the bytes below `byte_capacity`; the boundary only moves forward.
fn head_cleared(n: Numbers, f: usize, byte_capacity: u64) -> Numbers
    requires { (n.back_start + n.back_len ≡ n.slots) × (f ≤ n.slots) }
    ensures { result ≡ numbers_of (head_cleared_to (bare n) f byte_capacity) }
{
    let back_start = n.back_start;
    let back_len = n.back_len;
    let front = PoolFront {
        back_start: f,
        byte_capacity,
        len: 0,
    };
    if back_start < f {
        return n.placed(PoolMode::Front(front), f, back_len - (f - back_start), 0, 0);
    }
    n.placed(PoolMode::Front(front), back_start, back_len, 0, 0)
}

// The head cleared, if the frame is shorter than the bytes before the first live slot.
pub(crate) fn try_clear_head(t: Tested, entries: &Entries) -> Option<Numbers>
    requires { t.n.back_start + t.n.back_len ≡ t.n.slots }
    ensures { result ≡ cleared_on (head_fits t.n.slots (plain t.n entries.now.starts [])) (numbers_of (head_cleared t.n.slots (plain t.n entries.now.starts []))) }
{
    let n = t.n;
    let slots = n.slots;
    let state = SharedState {
        slots,
        live: n.live,
    };
    let front_slots = state.leading();
    if front_slots < 1 || slots <= front_slots {
        return None;
    }
    let start = entries.starts[front_slots] as u64;
    if start <= n.raw_len {
        return None;
    }
    Some(head_cleared(n, front_slots, start))
}

// Do a slot and `len` bytes after the frame lie within the back?
pub(crate) fn back_fits(t: Tested, len: u64) -> bool
    ensures { result ≡ back_fits t.n.slots (bare t.n) len }
{
    let n = t.n;
    in_bounds(n.capacity, n.raw_offset, n.raw_len, len) && n.back_start + n.back_len < n.slots
}

// A frame that is in the back: it stays, or the tail or the head is cleared for it, or it goes to the overflow.
pub(crate) fn reserve(t: Tested, entries: &Entries, len: u64) -> ModeStep
    requires { (t.n.mode ≡ Back) × (t.n.cursor ≡ 0) }
    ensures { layer_of entries.now.starts entries.now.lengths t.n result ≡ back_layer t.n.slots (plain t.n entries.now.starts entries.now.lengths) len }
{
    let n = t.n;
    let start = n.raw_offset;
    if back_fits(t, len) {
        return ModeStep::new(ModeChange::Stays, start, n);
    }
    if !tail_is_clearable(t) {
        return go_out(n);
    }
    if let Some(m) = try_clear_tail_unchecked(t, entries, len) {
        return ModeStep::new(ModeChange::Stays, start, m);
    }
    if let Some(m) = try_clear_head(t, entries) {
        return ModeStep::new(ModeChange::Changes, start, m);
    }
    go_out(n)
}
