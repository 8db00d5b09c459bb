// The calls on a record's numbers, by value, with its entries lent: they give the numbers that change. The calls on a record by value
// (calls.rt, views.rt) and those of the C interface share them. Entries that a call does not read may be any (proofs/EveryRest.antt).
ghost use Rattle.std.specs.Prelude.{◌≡◌, true, [], ◌+◌, ◌-◌, ◌≤◌, ◌<◌, Ok, length, leb, ltb, eqb};
ghost use Rattle.laws.specs.Lists.{copied, moved, zeroed};
ghost use Rattle.laws.specs.Tests.{pick};
ghost use Rattle.buffer_pool.specs.declared.buffer_pool.PoolMode.TheVariants.{Back};
ghost use Rattle.buffer_pool.specs.Record.{caller_count};
ghost use Rattle.buffer_pool.specs.Numbers.{Whole, numbers_of, with_entries, plain, bare};
ghost use Rattle.buffer_pool.specs.Moves.{memories, perform, all_inside};
ghost use Rattle.buffer_pool.specs.Deciding as deciding;
ghost use Rattle.buffer_pool.specs.Lent as lent;
ghost use Rattle.buffer_pool.specs.Steps as steps;
ghost use Rattle.buffer_pool.specs.Calls as spec;

use crate::buffer_pool::{BufferPool, Entries, Memory, Place, PoolFront, PoolMode};
use crate::guard::guard;
use crate::inner_memory::{copy_between, copy_within, fill_zero};
use crate::numbers::{Numbers, Tested};
use crate::placing::{Decided, FastPath, ResetEffect, Start, begin, fast_path, place};
use crate::refusals::Refusal;
use crate::route::{make_moves, move_raw_at_offset};
use crate::slice::{Handle, SharedState};
use crate::sound::{front_sound, numbers_sound};
use crate::steps;

// What a reserve gives: the reservation, how often the mode changed, whether the starts and lengths of all slots become 0, and the
// numbers. No other field counts only where `clears` is set.
#[derive(Clone, Copy)]
pub struct Reserving {
    pub place: Place,
    pub changes: u32,
    pub clears: bool,
    pub numbers: Numbers,
}

// What a commit or a truncate gives: the frame, and the numbers that it changes. The reservation is spent.
#[derive(Clone, Copy)]
pub struct Resizing {
    pub place: Place,
    pub raw_len: u64,
    pub cursor: u64,
}

// What a take gives: how many bytes it copied, 0 for an empty frame, or the handle of the slice; and the numbers.
#[derive(Clone, Copy)]
pub enum Taking {
    Copied(u64, Numbers),
    Pooled(Handle, Numbers),
}

// A reserve that leaves these numbers.
fn reserved(n: Numbers, changes: u32, clears: bool) -> Reserving
    requires { (steps.frame (bare n)).start + (steps.frame (bare n)).length ≤ 18446744073709551615 }
    ensures { result ≡ lent.reserved n changes clears }
{
    Reserving {
        place: steps::reservation(n),
        changes,
        clears,
        numbers: n,
    }
}

// The numbers with a reservation of `len` bytes after the frame.
fn offered(n: Numbers, len: u64) -> Numbers
    ensures { result ≡ numbers_of (deciding.offered (bare n) len) }
{
    let mut m = n;
    m.reserved = len;
    m
}

// The frame of the overflow with a reservation that ends past the kept bytes: the bytes from there to its end are cleared and kept.
fn grow(n: Numbers, overflow: &mut [u8], len: u64) -> Numbers
    requires { (n.kept ≤ n.cursor + len) × (n.cursor + len ≤ length overflow.old) }
    ensures value { result ≡ numbers_of (deciding.offered (deciding.kept_to (bare n) (n.cursor + len)) len) }
    ensures overflow_after { overflow.new ≡ zeroed overflow.old n.kept (n.cursor + len) }
{
    let end = n.cursor + len;
    fill_zero(overflow, n.kept as usize, end as usize);
    let mut m = n;
    m.kept = end;
    m.reserved = len;
    m
}

// The first `n` of the `kept` bytes of the overflow go to the start of `to`, and the bytes after them down to 0: the Rust's
// `split_off`.
fn split_off(overflow: &mut [u8], to: &mut [u8], n: u64, kept: u64)
    requires { (n ≤ length to.old) × (n ≤ kept) × (kept ≤ length overflow.old) }
    ensures to_after { to.new ≡ copied overflow.old 0 n to.old 0 }
    ensures overflow_after { overflow.new ≡ moved overflow.old n (kept - n) 0 }
{
    let first = n as usize;
    let rest = (kept - n) as usize;
    copy_between(overflow, 0, first, to, 0);
    copy_within(overflow, first, rest, 0);
}

// The moves of a reset.
fn make_reset_moves(pool: &mut [u8], overflow: &mut [u8], n: Numbers, start: Start)
    requires { (all_inside (length pool.old) (length overflow.old) (deciding.start_moves n start) ≡ true) × (deciding.is_bringing start.effect ≡ true → n.cursor ≤ n.kept) }
    ensures { memories pool.new overflow.new ≡ perform (deciding.start_moves n start) (memories pool.old overflow.old) }
{
    let m = start.numbers;
    match start.effect {
        ResetEffect::BringsFrame => split_off(overflow, pool, n.cursor, n.kept),
        ResetEffect::Nothing | ResetEffect::ClearsEntries => {
            move_raw_at_offset(pool, n.raw_offset, n.raw_len, m.raw_offset);
        }
    }
}

// The overflow grows from `start` up to `end`, if that is more.
fn grow_to(overflow: &mut [u8], start: u64, end: u64)
    requires { start < end → end ≤ length overflow.old }
    ensures { overflow.new ≡ pick (ltb start end) (zeroed overflow.old start end) overflow.old }
{
    if end <= start {
        return;
    }
    fill_zero(overflow, start as usize, end as usize);
}

// The moves of a reserve.
fn make_all_moves(pool: &mut [u8], overflow: &mut [u8], n: Numbers, start: Start, d: Decided)
    requires { (all_inside (length pool.old) (length overflow.old) (deciding.all_moves n start d) ≡ true) × (deciding.is_bringing start.effect ≡ true → n.cursor ≤ n.kept) }
    ensures { memories pool.new overflow.new ≡ perform (deciding.all_moves n start d) (memories pool.old overflow.old) }
{
    make_reset_moves(pool, overflow, n, start);
    make_moves(pool, overflow, d.route);
    let m = d.numbers;
    grow_to(overflow, d.kept, m.kept);
}

// A reserve that places the frame anew: the bytes are moved once the overflow is known to be long enough.
fn place_anew(
    n: Numbers,
    entries: &Entries,
    pool: &mut [u8],
    overflow: &mut [u8],
    len: u64,
) -> Result<Reserving, Refusal>
    requires { (Ok tt ≡ spec.guard n.slots (with_entries n entries.now) (memories pool.old overflow.old)) × (Whole entries.now) }
    ensures { spec.outcome (lent.reserve_called (with_entries n entries.now) result) (memories pool.new overflow.new) [] ≡ spec.reserve n.slots (with_entries n entries.now) (memories pool.old overflow.old) len }
{
    let start = begin(n);
    let Some(d) = place(start, entries, len) else {
        return Err(Refusal::OverflowTooShort);
    };
    make_all_moves(pool, overflow, n, start, d);
    Ok(reserved(d.numbers, d.changes, start.clears()))
}

// The frame with another length, by the mode, its reservation spent.
fn resized(n: Numbers, len: u64) -> Resizing
    ensures { result ≡ lent.resized_in n.mode n len }
{
    match n.mode {
        PoolMode::Back | PoolMode::Front(_) => Resizing {
            place: Place {
                memory: Memory::Pool,
                start: n.raw_offset,
                length: len,
            },
            raw_len: len,
            cursor: n.cursor,
        },
        PoolMode::Alloc => Resizing {
            place: Place {
                memory: Memory::Overflow,
                start: 0,
                length: len,
            },
            raw_len: n.raw_len,
            cursor: len,
        },
    }
}

// That a slot is left, and how far the back reaches then, stands in the contracts of the four steps of a take of the pool. A struct that
// says it would be built once, by `take`, and be taken apart in these four.

// The mode after a take of the next slot: a front has one used slot more.
fn taken_mode(t: Tested) -> PoolMode
    requires { t.n.used < t.n.slots }
    ensures { result ≡ lent.taken_mode t.n.mode t.n }
{
    let n = t.n;
    match n.mode {
        PoolMode::Front(f) => PoolMode::Front(PoolFront {
            len: n.used + 1,
            ..f
        }),
        mode => mode,
    }
}

// The slots of the back after a take of the next slot.
fn taken_len(t: Tested) -> usize
    requires { (t.n.used < t.n.slots) × (t.n.mode ≡ Back → t.n.back_start ≤ t.n.used + 1) }
    ensures { result ≡ lent.taken_len t.n.mode t.n }
{
    let n = t.n;
    match n.mode {
        PoolMode::Back => n.used + 1 - n.back_start,
        PoolMode::Front(_) | PoolMode::Alloc => n.back_len,
    }
}

// The numbers after a take of the next slot; an empty frame begins after it: `InnerMemory::get_data_owned`.
fn handed_out(t: Tested) -> Numbers
    requires { (t.n.used < t.n.slots) × (t.n.raw_offset + t.n.raw_len ≤ 4294967295) × (t.n.mode ≡ Back → t.n.back_start ≤ t.n.used + 1) }
    ensures { result ≡ lent.handed_out (lent.taken_mode t.n.mode t.n) (lent.taken_len t.n.mode t.n) t.n }
{
    let n = t.n;
    let position = n.used + 1;
    let state = SharedState {
        slots: n.slots,
        live: n.live,
    };
    Numbers {
        live: state.claim(position),
        back_len: taken_len(t),
        used: position,
        raw_offset: n.raw_offset + n.raw_len,
        raw_len: 0,
        mode: taken_mode(t),
        reserved: 0,
        ..n
    }
}

// A caller's take of a non-empty frame of the pool; `last` is how many serials the caller was given.
fn take_pooled(t: Tested, caller: u64, last: u32) -> Result<Taking, Refusal>
    requires { (t.n.used < t.n.slots) × (t.n.raw_offset + t.n.raw_len ≤ 4294967295) × (t.n.mode ≡ Back → t.n.back_start ≤ t.n.used + 1) × (caller < caller_count) }
    ensures { result ≡ lent.pooled (leb 4294967295 last) t.n caller last }
{
    let n = t.n;
    if last == u32::MAX {
        return Err(Refusal::NoSerials);
    }
    let handle = Handle {
        slot: (n.used + 1) as u8,
        start: n.raw_offset as u32,
        length: n.raw_len as u32,
        serial: last + 1,
        caller: caller as u8,
    };
    Ok(Taking::Pooled(handle, handed_out(t)))
}

// A take of a non-empty frame of the overflow.
fn take_copied(n: Numbers, overflow: &mut [u8], destination: &mut [u8]) -> Result<Taking, Refusal>
    requires { (n.cursor ≤ n.kept) × (n.kept ≤ length overflow.old) }
    ensures value { result ≡ lent.copied_out (ltb (length destination.old) n.cursor) n }
    ensures destination_after { destination.new ≡ copied overflow.old 0 (lent.copied_by result) destination.old 0 }
    ensures overflow_after { overflow.new ≡ pick (eqb (lent.copied_by result) 0) overflow.old (moved overflow.old (lent.copied_by result) (n.kept - lent.copied_by result) 0) }
{
    let cursor = n.cursor;
    if (destination.len() as u64) < cursor {
        return Err(Refusal::DestinationTooShort);
    }
    split_off(overflow, destination, cursor, n.kept);
    let m = n.framed(
        PoolMode::Alloc,
        n.raw_offset,
        n.raw_len,
        n.kept - cursor,
        0,
        0,
    );
    Ok(Taking::Copied(cursor, m))
}

impl Numbers {
    // Room for `len` more bytes after the frame. Refuses as `BufferPool::reserve` does.
    pub fn reserve(
        self,
        entries: &Entries,
        pool: &mut [u8],
        overflow: &mut [u8],
        len: u64,
    ) -> Result<Reserving, Refusal>
        ensures { spec.outcome (lent.reserve_called (with_entries self entries.now) result) (memories pool.new overflow.new) [] ≡ spec.reserve self.slots (with_entries self entries.now) (memories pool.old overflow.old) len }
    {
        let sound = front_sound(self, numbers_sound(self), entries);
        guard(self, sound, entries, pool, overflow)?;
        match fast_path(Tested { n: self }, len) {
            FastPath::Settled => Ok(reserved(offered(self, len), 0, false)),
            FastPath::StartsOver => {
                let start = self.placed(PoolMode::Back, 0, 0, 0, 0);
                Ok(reserved(offered(start, len), 0, false))
            }
            FastPath::Growing => Ok(reserved(grow(self, overflow, len), 0, false)),
            FastPath::Moving => place_anew(self, entries, pool, overflow, len),
        }
    }

    // The first `n` bytes of the reservation join the frame. Refuses as `BufferPool::commit` does.
    pub fn commit(
        self,
        entries: &Entries,
        pool: &[u8],
        overflow: &[u8],
        n: u64,
    ) -> Result<Resizing, Refusal>
        ensures { spec.outcome (lent.resize_called (with_entries self entries.now) result) (memories pool.now overflow.now) [] ≡ spec.commit self.slots (with_entries self entries.now) (memories pool.now overflow.now) n }
    {
        let sound = front_sound(self, numbers_sound(self), entries);
        guard(self, sound, entries, pool, overflow)?;
        if self.reserved < n {
            return Err(Refusal::CommitTooLong);
        }
        let whole = steps::frame(self);
        Ok(resized(self, whole.length + n))
    }

    // The frame keeps at most its first `n` bytes. Refuses as `BufferPool::truncate` does.
    pub fn truncate(
        self,
        entries: &Entries,
        pool: &[u8],
        overflow: &[u8],
        n: u64,
    ) -> Result<Resizing, Refusal>
        ensures { spec.outcome (lent.resize_called (with_entries self entries.now) result) (memories pool.now overflow.now) [] ≡ spec.truncate self.slots (with_entries self entries.now) (memories pool.now overflow.now) n }
    {
        let sound = front_sound(self, numbers_sound(self), entries);
        guard(self, sound, entries, pool, overflow)?;
        let whole = steps::frame(self);
        if n < whole.length {
            return Ok(resized(self, n));
        }
        Ok(resized(self, whole.length))
    }

    // The frame becomes a slice of the pool, with the caller's next serial, or is copied to the start of `destination`. Refuses as
    // `BufferPool::take` does.
    pub fn take(
        self,
        entries: &Entries,
        pool: &[u8],
        overflow: &mut [u8],
        caller: u64,
        destination: &mut [u8],
    ) -> Result<Taking, Refusal>
        ensures value { spec.outcome (lent.take_called (with_entries self entries.now) result) (memories pool.now overflow.new) destination.new ≡ spec.take self.slots (with_entries self entries.now) (memories pool.now overflow.old) caller destination.old }
        ensures in_arrays { lent.InArrays result }
    {
        let sound = front_sound(self, numbers_sound(self), entries);
        guard(self, sound, entries, pool, overflow)?;
        if BufferPool::CALLERS as u64 <= caller {
            return Err(Refusal::UnknownCaller);
        }
        let whole = steps::frame(self);
        if whole.length == 0 {
            return Ok(Taking::Copied(0, offered(self, 0)));
        }
        if steps::in_overflow(self) {
            return take_copied(self, overflow, destination);
        }
        take_pooled(Tested { n: self }, caller, entries.given[caller as usize])
    }

    // The slot of the handle is free again: gives the live slots. Refuses as `BufferPool::release` does.
    pub fn release(
        self,
        entries: &Entries,
        pool: &[u8],
        overflow: &[u8],
        h: Handle,
    ) -> Result<u16, Refusal>
        ensures { spec.outcome (lent.release_called (with_entries self entries.now) result) (memories pool.now overflow.now) [] ≡ spec.release self.slots (with_entries self entries.now) (memories pool.now overflow.now) h }
    {
        let sound = front_sound(self, numbers_sound(self), entries);
        guard(self, sound, entries, pool, overflow)?;
        let t = Tested { n: self };
        if !steps::names(t, entries, h) {
            return Err(Refusal::NotLive);
        }
        let state = SharedState {
            slots: self.slots,
            live: self.live,
        };
        Ok(state.release(h.slot as usize))
    }

    // The views by number: two names of the pool's and a third, each of which is `guard` and the place.

    // Where the frame lies. Refused as `BufferPool::frame_view` is.
    pub fn frame_view(
        self,
        entries: &Entries,
        pool: &[u8],
        overflow: &[u8],
    ) -> Result<Place, Refusal>
        ensures { result ≡ spec.frame_view self.slots (with_entries self entries.now) (memories pool.now overflow.now) }
    {
        let sound = front_sound(self, numbers_sound(self), entries);
        guard(self, sound, entries, pool, overflow)?;
        Ok(steps::frame(self))
    }

    // Where the reservation lies. Refused as `BufferPool::reservation_view` is.
    pub fn reservation_view(
        self,
        entries: &Entries,
        pool: &[u8],
        overflow: &[u8],
    ) -> Result<Place, Refusal>
        ensures { result ≡ spec.reservation_view self.slots (with_entries self entries.now) (memories pool.now overflow.now) }
    {
        let sound = front_sound(self, numbers_sound(self), entries);
        guard(self, sound, entries, pool, overflow)?;
        Ok(steps::reservation(self))
    }

    // Where the slice of a handle lies. Refused as `BufferPool::slice_view` is.
    pub fn slice_view(
        self,
        entries: &Entries,
        pool: &[u8],
        overflow: &[u8],
        h: Handle,
    ) -> Result<Place, Refusal>
        ensures { result ≡ spec.slice_view self.slots (with_entries self entries.now) (memories pool.now overflow.now) h }
    {
        let sound = front_sound(self, numbers_sound(self), entries);
        guard(self, sound, entries, pool, overflow)?;
        let t = Tested { n: self };
        if !steps::names(t, entries, h) {
            return Err(Refusal::NotLive);
        }
        Ok(Place {
            memory: Memory::Pool,
            start: h.start as u64,
            length: h.length as u64,
        })
    }
}
