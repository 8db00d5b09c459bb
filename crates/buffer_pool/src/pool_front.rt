// The front of the pool: its own freed slots dropped, and a frame placed there (`PoolFront` in buffer_pool/mod.rs of the Rust).
ghost use Rattle.std.specs.Prelude.{◌≡◌, ◌&&◌, [], ◌+◌, ◌≤◌, ltb};
ghost use Rattle.laws.specs.Live.{last_live};
ghost use Rattle.buffer_pool.specs.Record.{most_slots};
ghost use Rattle.buffer_pool.specs.Numbers.{numbers_of, plain, bare};
ghost use Rattle.buffer_pool.specs.declared.buffer_pool.PoolMode.TheVariants.{Front};
ghost use Rattle.buffer_pool.specs.Placing as spec;
ghost use Rattle.buffer_pool.specs.Deciding.{Worded, layer_of};

use crate::buffer_pool::{Entries, PoolFront, PoolMode};
use crate::inner_memory::{in_bounds, raw_offset_from_len};
use crate::numbers::{Numbers, Tested};
use crate::placing::{ModeChange, ModeStep, go_out};
use crate::pool_back::{tail_is_clearable, try_clear_tail_unchecked};
use crate::slice::SharedState;

// Do a slot and `len` bytes after the frame lie within the front?
pub(crate) fn front_fits(n: Numbers, f: PoolFront, len: u64) -> bool
    ensures { result ≡ (ltb f.len f.back_start && spec.front_fits (bare n) f.byte_capacity len) }
{
    f.len < f.back_start && in_bounds(f.byte_capacity, n.raw_offset, n.raw_len, len)
}

// The front with its slots after `last`, its last live one, dropped: `try_clear_tail`.
fn front_cleared(n: Numbers, entries: &Entries, f: PoolFront, last: usize) -> Numbers
    requires { (last ≡ last_live n.slots n.live f.len) × (last ≤ most_slots) }
    ensures { result ≡ numbers_of (spec.front_cleared n.slots (plain n entries.now.starts entries.now.lengths) f) }
{
    let start = raw_offset_from_len(entries, last);
    let front = PoolFront { len: last, ..f };
    n.placed(
        PoolMode::Front(front),
        n.back_start,
        n.back_len,
        last,
        start,
    )
}

// The front gives way: to the back by a tail clear, else to the overflow.
fn leave(t: Tested, entries: &Entries, len: u64) -> ModeStep
    requires { t.n.cursor ≡ 0 }
    ensures { (layer_of entries.now.starts entries.now.lengths t.n result ≡ spec.leave t.n.slots (plain t.n entries.now.starts entries.now.lengths) [] len) × (result.via ≡ t.n.raw_offset) }
{
    let n = t.n;
    if !tail_is_clearable(t) {
        return go_out(n);
    }
    if let Some(m) = try_clear_tail_unchecked(t, entries, len) {
        return ModeStep::new(ModeChange::Changes, n.raw_offset, m);
    }
    go_out(n)
}

// A frame that is in the front: it stays, or it stays after the front's freed slots are dropped, or the front gives way.
pub(crate) fn reserve(t: Tested, entries: &Entries, f: PoolFront, len: u64) -> ModeStep
    requires { (t.n.mode ≡ Front f) × (t.n.cursor ≡ 0) × (f.len ≤ t.n.slots) }
    ensures { layer_of entries.now.starts entries.now.lengths t.n result ≡ spec.front_layer t.n.slots f (plain t.n entries.now.starts entries.now.lengths) len }
{
    let n = t.n;
    if front_fits(n, f, len) {
        return ModeStep::new(ModeChange::Stays, n.raw_offset, n);
    }
    let state = SharedState {
        slots: n.slots,
        live: n.live,
    };
    let last = state.last_front(f.len);
    if f.len <= last {
        return leave(t, entries, len);
    }
    let m = front_cleared(n, entries, f, last);
    let start = m.raw_offset;
    if in_bounds(f.byte_capacity, start, n.raw_len, len) {
        return ModeStep::new(ModeChange::Stays, start, m);
    }
    leave(Tested { n: m }, entries, len)
}
