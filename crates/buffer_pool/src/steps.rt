// What commit, truncate, take and release read off a record: the frame, the reservation, and whether a handle names a live slice.
ghost use Rattle.std.specs.Prelude.{◌≡◌, ◌+◌, ◌≤◌};
ghost use Rattle.buffer_pool.specs.Numbers.{bare, with_entries};
ghost use Rattle.buffer_pool.specs.Placing.{is_alloc};
ghost use Rattle.buffer_pool.specs.Steps as spec;

use crate::buffer_pool::{BufferPool, Entries, Memory, Place, PoolMode};
use crate::numbers::{Numbers, Tested};
use crate::slice::{Handle, SharedState};

// The frame: in the pool, or at the overflow's start.
pub(crate) fn frame(n: Numbers) -> Place
    ensures { result ≡ spec.frame_of n.mode (bare n) }
{
    match n.mode {
        PoolMode::Back | PoolMode::Front(_) => Place {
            memory: Memory::Pool,
            start: n.raw_offset,
            length: n.raw_len,
        },
        PoolMode::Alloc => Place {
            memory: Memory::Overflow,
            start: 0,
            length: n.cursor,
        },
    }
}

// Is the frame in the overflow?
pub(crate) fn in_overflow(n: Numbers) -> bool
    ensures { result ≡ is_alloc n.mode }
{
    matches!(n.mode, PoolMode::Alloc)
}

// The reservation: after the frame, in the same memory.
pub(crate) fn reservation(n: Numbers) -> Place
    requires { (spec.frame (bare n)).start + (spec.frame (bare n)).length ≤ 18446744073709551615 }
    ensures { result ≡ spec.reservation (bare n) }
{
    let frame = frame(n);
    Place {
        memory: frame.memory,
        start: frame.start + frame.length,
        length: n.reserved,
    }
}

// Does the handle name a live slot, with that slot's start, length, serial and caller, which is one of the callers?
pub(crate) fn names(t: Tested, entries: &Entries, h: Handle) -> bool
    ensures { result ≡ spec.names t.n.slots (with_entries t.n entries.now) h }
{
    let n = t.n;
    let slot = h.slot as usize;
    if slot < 1 || n.slots < slot {
        return false;
    }
    let k = slot - 1;
    let state = SharedState {
        slots: n.slots,
        live: n.live,
    };
    state.is_live(slot)
        && h.start == entries.starts[k]
        && h.length == entries.lengths[k]
        && h.serial == entries.serials[k]
        && h.caller == entries.callers[k]
        && (h.caller as usize) < BufferPool::CALLERS
}
