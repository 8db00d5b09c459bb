// The way of a frame that a reserve places anew: where it lies in the pool, place after place, and whether it goes out to the overflow;
// and the moves made on it.
ghost use Rattle.std.specs.Prelude.{◌≡◌, true, false, ◌||◌, ◌+◌, ◌≤◌, eqb, length};
ghost use Rattle.laws.specs.Lists.{moved};
ghost use Rattle.buffer_pool.specs.Moves as spec;
ghost use Rattle.buffer_pool.specs.Deciding.{stayed_at, onward, route_moves};

use crate::inner_memory::{copy_between, copy_within};

// The frame's length, where it starts, and two places for each call of `reserve_`; a place that is the one before is no move. From the
// last place it goes out to the overflow, or it stays there. No other field counts only where `out` is set.
#[derive(Clone, Copy)]
pub struct Route {
    pub size: u64,
    pub start: u64,
    pub first: u64,
    pub second: u64,
    pub third: u64,
    pub fourth: u64,
    pub out: bool,
}

impl Route {
    // The way of a frame that stays.
    pub(crate) fn at(start: u64, size: u64) -> Self
        ensures { result ≡ stayed_at start size }
    {
        Route {
            size,
            start,
            first: start,
            second: start,
            third: start,
            fourth: start,
            out: false,
        }
    }

    // The way after a call of `reserve_`, with so many changes before it, by which the frame goes by `via` to `to`.
    pub(crate) fn on(self, changes: u32, via: u64, to: u64) -> Self
        ensures { result ≡ onward self changes via false to }
    {
        if changes == 0 {
            return Route {
                first: via,
                second: to,
                third: to,
                fourth: to,
                out: false,
                ..self
            };
        }
        Route {
            third: via,
            fourth: to,
            out: false,
            ..self
        }
    }

    // The way after a call of `reserve_` by which the frame goes out from `via`.
    pub(crate) fn out_from(self, changes: u32, via: u64) -> Self
        ensures { result ≡ onward self changes via true via }
    {
        Route {
            out: true,
            ..self.on(changes, via, via)
        }
    }
}

// Is there nothing to move: an empty frame, or one that already lies there?
fn is_unmoved(start: u64, len: u64, to: u64) -> bool
    ensures { result ≡ (eqb len 0 || eqb start to) }
{
    len == 0 || start == to
}

// The move of a frame within the pool, if it is one: `InnerMemory::move_raw_at_offset`.
pub(crate) fn move_raw_at_offset(pool: &mut [u8], start: u64, len: u64, to: u64)
    requires { spec.all_inside (length pool.old) 0 (spec.within start len to) ≡ true }
    ensures { pool.new ≡ moved pool.old start len to }
{
    if is_unmoved(start, len, to) {
        return;
    }
    copy_within(pool, start as usize, len as usize, to as usize);
}

// Two such moves, by `via` to `to`.
fn move_raw_by(pool: &mut [u8], start: u64, len: u64, via: u64, to: u64)
    requires { (spec.all_inside (length pool.old) 0 (spec.within start len via) ≡ true) × (spec.all_inside (length pool.old) 0 (spec.within via len to) ≡ true) }
    ensures { pool.new ≡ moved (moved pool.old start len via) via len to }
{
    move_raw_at_offset(pool, start, len, via);
    move_raw_at_offset(pool, via, len, to);
}

// The move of a frame out to the overflow's start: `InnerMemory::copy_into_buffer`.
fn copy_into_buffer(pool: &[u8], overflow: &mut [u8], start: u64, len: u64)
    requires { (start + len ≤ length pool.now) × (0 + len ≤ length overflow.old) }
    ensures { spec.memories pool.now overflow.new ≡ spec.act (spec.memories pool.now overflow.old) (spec.Out start len) }
{
    copy_between(pool, start as usize, len as usize, overflow, 0);
}

// The moves of a way.
pub(crate) fn make_moves(pool: &mut [u8], overflow: &mut [u8], route: Route)
    requires { spec.all_inside (length pool.old) (length overflow.old) (route_moves route) ≡ true }
    ensures { spec.memories pool.new overflow.new ≡ spec.perform (route_moves route) (spec.memories pool.old overflow.old) }
{
    let size = route.size;
    let last = route.fourth;
    move_raw_by(pool, route.start, size, route.first, route.second);
    move_raw_by(pool, route.second, size, route.third, last);
    if route.out {
        copy_into_buffer(pool, overflow, last, size);
    }
}
