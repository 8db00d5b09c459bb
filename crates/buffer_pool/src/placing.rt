// Placing a frame: `reserve_`, `change_mode` and `reset` (`BufferPool` in buffer_pool/mod.rs of the Rust), numbers alone. The
// bytes are moved once the whole decision is known.
ghost use Rattle.std.specs.Prelude.{◌≡◌, true, false, ◌+◌, ◌≤◌, ◌<◌, ltb, eqb, Some};
ghost use Rattle.buffer_pool.specs.declared.buffer_pool.PoolMode.TheVariants.{Back, Alloc};
ghost use Rattle.buffer_pool.specs.Numbers.{plain, bare};
ghost use Rattle.buffer_pool.specs.Placing as spec;
ghost use Rattle.buffer_pool.specs.Deciding as deciding;
ghost use Rattle.buffer_pool.specs.Deciding.{Worded, Placeable, Reaches, Decides, step, gone_out, layer_of, route_moves, finished_on, following, start_on, start_of, keeps_in, fits_in, starts_over_in, growing_here, path};

use crate::buffer_pool::{Entries, PoolMode};
use crate::inner_memory::in_bounds;
use crate::numbers::{Numbers, Tested};
use crate::route::Route;
use crate::slice::SharedState;
use crate::{pool_back, pool_front, steps};

// What one call of `reserve_` does: the mode keeps the frame; it changes, and the frame is placed again; or the frame goes out to the
// overflow.
#[derive(Clone, Copy)]
pub enum ModeChange {
    Stays,
    Changes,
    GoesOut,
}

// The same with the numbers after it. The frame goes by `via` to where they say, or out from there.
#[derive(Clone, Copy)]
pub struct ModeStep {
    pub change: ModeChange,
    pub via: u64,
    pub numbers: Numbers,
}

// The whole decision of a reserve: the next numbers, the count of mode changes, the length kept of the overflow before it grows, and the
// frame's way.
#[derive(Clone, Copy)]
pub struct Decided {
    pub numbers: Numbers,
    pub changes: u32,
    pub kept: u64,
    pub route: Route,
}

// Whether a reserve moves no byte: the frame stays where it is and fits; it starts over, empty, at the pool's start; or it stays in the
// overflow, which grows. Else it is placed anew.
#[derive(Clone, Copy)]
pub enum FastPath {
    Settled,
    StartsOver,
    Growing,
    Moving,
}

// What a reset does beside the numbers: nothing, or it brings the frame in from the overflow, or it makes the starts and lengths of all
// slots 0.
#[derive(Clone, Copy)]
pub enum ResetEffect {
    Nothing,
    BringsFrame,
    ClearsEntries,
}

// What a reserve starts from after a reset.
#[derive(Clone, Copy)]
pub struct Start {
    pub numbers: Numbers,
    pub effect: ResetEffect,
}

impl ModeStep {
    // The mode stays or changes, to the back or to the front.
    pub(crate) fn new(change: ModeChange, via: u64, numbers: Numbers) -> Self
        ensures { result ≡ step change via numbers }
    {
        ModeStep {
            change,
            via,
            numbers,
        }
    }
}

// That the overflow holds no frame (`cursor` 0) stands in the contracts of the steps that start in the pool. It follows from the mode,
// which `mode_step` has just told apart: a struct that says it would be built in two of its branches and read once in each.

// The frame goes to the overflow's start: `copy_into_buffer` and `reset_raw`.
pub(crate) fn go_out(n: Numbers) -> ModeStep
    requires { n.cursor ≡ 0 }
    ensures { result ≡ gone_out n }
{
    let raw_len = n.raw_len;
    let kept = n.kept.max(raw_len);
    ModeStep {
        change: ModeChange::GoesOut,
        via: n.raw_offset,
        numbers: n.framed(PoolMode::Alloc, 0, 0, kept, raw_len, n.reserved),
    }
}

// `mode_step` and what calls it take `Numbers` and not `Tested`, which is of numbers that the test has seen: a step gives numbers that it
// has not seen, of which `Placeable` says what the next step needs.

// Does the overflow keep a frame that did not enter it just now? It does if the frame is not empty, or if the back has no slots or no
// tail to clear.
fn stays(t: Tested) -> bool
    ensures { result ≡ spec.stays t.n.slots false (bare t.n) }
{
    let n = t.n;
    0 < n.cursor || n.back_len == 0 || !pool_back::tail_is_clearable(t)
}

// A frame that is in the overflow: it stays, or the tail or the head is cleared for it.
fn reserve_from_system_memory(t: Tested, entries: &Entries, len: u64) -> ModeStep
    requires { (t.n.mode ≡ Alloc) × (t.n.raw_len ≡ 0) }
    ensures { layer_of entries.now.starts entries.now.lengths t.n result ≡ spec.alloc_layer t.n.slots false (plain t.n entries.now.starts entries.now.lengths) len }
{
    let n = t.n;
    let start = n.raw_offset;
    if stays(t) {
        return ModeStep::new(ModeChange::Stays, start, n);
    }
    if let Some(m) = pool_back::try_clear_tail_unchecked(t, entries, len) {
        return ModeStep::new(ModeChange::Changes, start, m);
    }
    if let Some(m) = pool_back::try_clear_head(t, entries) {
        return ModeStep::new(ModeChange::Changes, start, m);
    }
    ModeStep::new(ModeChange::Stays, start, n)
}

// One call of `reserve_`, in the mode that the pool is in.
fn mode_step(n: Numbers, entries: &Entries, len: u64) -> ModeStep
    requires { Placeable n.slots (bare n) }
    ensures { layer_of entries.now.starts entries.now.lengths n result ≡ spec.layer n.slots false n.mode (plain n entries.now.starts entries.now.lengths) len }
{
    let t = Tested { n };
    match n.mode {
        PoolMode::Back => pool_back::reserve(t, entries, len),
        PoolMode::Front(f) => pool_front::reserve(t, entries, f, len),
        PoolMode::Alloc => reserve_from_system_memory(t, entries, len),
    }
}

// The count of changes goes beside the way and not in it: a way is what the bytes do, and a reserve answers the count. That `cursor` is at
// most `kept` is asked where a frame of the overflow moves, and there alone: `Tested` would have to show it wherever it is built.

// The reservation of `len` bytes in the overflow, which grows where it must; none where it is too short.
fn finish_in_overflow(n: Numbers, route: Route, changes: u32, len: u64) -> Option<Decided>
    ensures { result ≡ finished_on Alloc n route changes len }
{
    let cursor = n.cursor;
    let kept = n.kept;
    if !in_bounds(n.overflow, cursor, len, 0) {
        return None;
    }
    let end = kept.max(cursor + len);
    Some(Decided {
        numbers: n.framed(PoolMode::Alloc, n.raw_offset, n.raw_len, end, cursor, len),
        changes,
        kept,
        route,
    })
}

// The reservation of `len` bytes in the pool.
fn finish_in_pool(n: Numbers, route: Route, changes: u32, len: u64) -> Decided
    ensures { Some result ≡ finished_on Back n route changes len }
{
    Decided {
        numbers: n.framed(n.mode, n.raw_offset, n.raw_len, n.kept, n.cursor, len),
        changes,
        kept: n.kept,
        route,
    }
}

// The reservation of `len` bytes where the frame lies.
fn finish(n: Numbers, route: Route, changes: u32, len: u64) -> Option<Decided>
    ensures { result ≡ finished_on n.mode n route changes len }
{
    match n.mode {
        PoolMode::Back | PoolMode::Front(_) => Some(finish_in_pool(n, route, changes, len)),
        PoolMode::Alloc => finish_in_overflow(n, route, changes, len),
    }
}

// The decision with so many mode changes still allowed: `reserve_`, which calls itself after each change. A frame that goes out to the
// overflow stays there.
fn reserve_(
    n: Numbers,
    entries: &Entries,
    route: Route,
    changes: u32,
    left: u32,
    len: u64,
) -> Option<Decided>
    requires { (Placeable n.slots (bare n)) × (changes + left ≡ 2) × (changes < 2 → Reaches route changes n) }
    ensures { Decides entries.now.starts entries.now.lengths result (following (route_moves route) changes (spec.place_of n.slots left false n.mode (plain n entries.now.starts entries.now.lengths) len)) len }
{
    if left == 0 {
        return finish(n, route, changes, len);
    }
    let step = mode_step(n, entries, len);
    let m = step.numbers;
    let via = step.via;
    match step.change {
        ModeChange::Stays => finish(m, route.on(changes, via, m.raw_offset), changes, len),
        ModeChange::Changes => {
            let on = route.on(changes, via, m.raw_offset);
            reserve_(m, entries, on, changes + 1, left - 1, len)
        }
        ModeChange::GoesOut => finish(m, route.out_from(changes, via), changes + 1, len),
    }
}

// Does a reserve begin with a reset? It does where no slot is live and either the back has slots or the overflow's frame is
// empty.
fn resets(n: Numbers) -> bool
    ensures { result ≡ spec.resets (bare n) }
{
    let in_overflow = steps::in_overflow(n);
    n.live == 0 && (n.back_len != 0 || (in_overflow && n.cursor == 0))
}

// The reset of a pool whose frame is in the overflow: to the pool's start, if it is strictly shorter than the pool.
fn reset_in_overflow(n: Numbers) -> Start
    requires { n.cursor ≤ n.kept }
    ensures { result ≡ start_on true (ltb n.cursor n.capacity) (eqb n.cursor 0) Alloc n }
{
    let cursor = n.cursor;
    if n.capacity <= cursor {
        return Start {
            numbers: n.placed(PoolMode::Alloc, n.back_start, n.back_len, 0, n.raw_offset),
            effect: ResetEffect::Nothing,
        };
    }
    let m = n.placed(PoolMode::Back, 0, 0, 0, 0);
    if cursor == 0 {
        return Start {
            numbers: m,
            effect: ResetEffect::ClearsEntries,
        };
    }
    let rest = n.kept - cursor;
    Start {
        numbers: m.framed(PoolMode::Back, 0, cursor, rest, 0, n.reserved),
        effect: ResetEffect::BringsFrame,
    }
}

// The reset, by the mode that the pool is in: a frame in the pool goes to its start, in the back.
fn reset(n: Numbers) -> Start
    requires { spec.is_alloc n.mode ≡ true → n.cursor ≤ n.kept }
    ensures { result ≡ start_on true (ltb n.cursor n.capacity) (eqb n.cursor 0) n.mode n }
{
    match n.mode {
        PoolMode::Back | PoolMode::Front(_) => Start {
            numbers: n.placed(PoolMode::Back, 0, 0, 0, 0),
            effect: ResetEffect::Nothing,
        },
        PoolMode::Alloc => reset_in_overflow(n),
    }
}

// Where a reserve starts: after a reset, if it begins with one.
pub(crate) fn begin(n: Numbers) -> Start
    requires { spec.is_alloc n.mode ≡ true → n.cursor ≤ n.kept }
    ensures { result ≡ start_of n }
{
    if resets(n) {
        return reset(n);
    }
    Start {
        numbers: n,
        effect: ResetEffect::Nothing,
    }
}

impl Start {
    // Do the starts and lengths of all slots become 0?
    pub(crate) fn clears(self) -> bool
        ensures { result ≡ deciding.is_clearing self.effect }
    {
        matches!(self.effect, ResetEffect::ClearsEntries)
    }
}

// Does the overflow keep the frame? It does if it stays, or if the first and the last slot live, so that no clear can succeed.
fn keeps(t: Tested) -> bool
    ensures { result ≡ keeps_in t.n.slots (bare t.n) }
{
    let n = t.n;
    let state = SharedState {
        slots: n.slots,
        live: n.live,
    };
    stays(t) || state.leading() == 0 && state.trailing() == 0
}

// Is an empty frame in the pool, with room for `len` bytes from its start on? A reset of it moves no byte.
fn starts_over(n: Numbers, len: u64) -> bool
    ensures { result ≡ starts_over_in (bare n) len }
{
    !steps::in_overflow(n) && n.raw_len == 0 && len <= n.capacity
}

// How a reserve goes whose frame is in the overflow, where no reset is due.
fn alloc_path(t: Tested, len: u64) -> FastPath
    ensures { result ≡ path (fits_in Alloc t.n.slots (bare t.n) len) false (growing_here t.n.slots (bare t.n) len) }
{
    let n = t.n;
    if !keeps(t) {
        return FastPath::Moving;
    }
    if in_bounds(n.kept, n.cursor, len, 0) {
        return FastPath::Settled;
    }
    if in_bounds(n.overflow, n.cursor, len, 0) {
        return FastPath::Growing;
    }
    FastPath::Moving
}

// How a reserve goes. Most move no byte, and are found here before the whole decision is made.
pub(crate) fn fast_path(t: Tested, len: u64) -> FastPath
    ensures { result ≡ deciding.fast_path t.n.slots (bare t.n) len }
{
    let n = t.n;
    if resets(n) {
        if starts_over(n, len) {
            return FastPath::StartsOver;
        }
        return FastPath::Moving;
    }
    match n.mode {
        PoolMode::Back if pool_back::back_fits(t, len) => FastPath::Settled,
        PoolMode::Front(f) if pool_front::front_fits(n, f, len) => FastPath::Settled,
        PoolMode::Alloc => alloc_path(t, len),
        _ => FastPath::Moving,
    }
}

// The whole decision of a reserve of `len` bytes, from where it starts.
pub(crate) fn place(start: Start, entries: &Entries, len: u64) -> Option<Decided>
    requires { Placeable start.numbers.slots (bare start.numbers) }
    ensures { Decides (deciding.entries start entries.now.starts) (deciding.entries start entries.now.lengths) result (spec.place_of start.numbers.slots 2 false start.numbers.mode (plain start.numbers (deciding.entries start entries.now.starts) (deciding.entries start entries.now.lengths)) len) len }
{
    let n = start.numbers;
    let route = Route::at(n.raw_offset, n.raw_len);
    if start.clears() {
        let mut cleared = *entries;
        cleared.clear();
        return reserve_(n, &cleared, route, 0, 2, len);
    }
    reserve_(n, entries, route, 0, 2, len)
}
