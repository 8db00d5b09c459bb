// One event of a run: the public call of the pool that it makes, and what its line shows.
ghost use Rattle.std.specs.Prelude.{◌≡◌, true, ◌+◌, ◌-◌, ◌≤◌, ◌<◌, ◌^◌, min, eqb, length};
ghost use Rattle.buffer_pool.specs.Record.{most_slots};
ghost use Rattle.buffer_pool.specs.Moves.{memories};
ghost use Rattle.buffer_pool.specs.Values.{values};
ghost use Rattle.trace.specs.Trace.{byte_of};
ghost use Rattle.replay.specs.Run as spec;

use crate::lent::Lent;
use crate::slots::Slots;
use buffer_pool::buffer_pool::{BufferPool, Called, Place, PoolMode};
use buffer_pool::slice::Handle;
use trace::{Event, Kind};

// How many events were done and how many refused; how many takes were non-empty, and how many of these came from the overflow. The
// counts grow with the events, so that a bound of them stands in contracts (`Within`) and not in a ghost field.
#[derive(Clone, Copy)]
pub struct Tally {
    pub done: u64,
    pub refused: u64,
    pub takes: u64,
    pub spilled: u64,
}

// What the run keeps between two events: the pool's record, the count of trace bytes used, and the counts of line T.
#[derive(Clone, Copy)]
pub struct State {
    pub pool: BufferPool,
    pub next: usize,
    pub tally: Tally,
}

// The start and length that a line shows.
#[derive(Clone, Copy)]
pub struct Extent {
    pub start: u64,
    pub length: u64,
}

// The two frame starts of which a line shows the difference.
#[derive(Clone, Copy)]
pub struct Starts {
    pub before: u64,
    pub after: u64,
}

// What the line of an event shows after the event's number, as it is printed: letters for a kind and a mode, and 0 where there is no
// refusal or no move.
#[derive(Clone, Copy)]
pub struct Shown {
    pub kind: u8,
    pub refusal: u8,
    pub mode: u8,
    pub live: u16,
    pub place: Extent,
    pub frame: Starts,
}

// What an event leaves, and what its line shows.
#[derive(Clone, Copy)]
pub struct Step {
    pub state: State,
    pub shown: Shown,
}

// What a call answered, as far as a line and the counts tell it: values that the definitions read an answer by (`values`, of a refusal
// too). Taken apart as a Result, each definition would read it anew.
#[derive(Clone, Copy)]
pub struct Told {
    pub refusal: u8,
    pub place: Place,
    pub handle: Handle,
    pub copied: u64,
}

// ---- Counting

// What a call answered.
fn told_of(c: Called) -> Told
    ensures { spec.Tells result (values c.answer) }
{
    Told {
        refusal: c.refusal(),
        place: c.place(),
        handle: c.handle(),
        copied: c.copied(),
    }
}

// The counts after a call that answered so.
fn counted(t: Tally, a: Told) -> Tally
    requires { spec.Within (2 ^ 63) t }
    ensures { result ≡ spec.counted t (spec.said a) }
{
    let refused = a.refusal != 0;
    let spilled = a.copied != 0;
    let taken = a.handle.slot != 0 || spilled;
    Tally {
        done: t.done + u64::from(!refused),
        refused: t.refused + u64::from(refused),
        takes: t.takes + u64::from(taken),
        spilled: t.spilled + u64::from(spilled),
    }
}

// ---- What a line shows

// The kind stays the byte of the file, which each function reads: the definitions are of any byte, and what a byte that is no kind's
// shows is not the same in each.

// Is this the byte of that kind?
fn is_kind(byte: u8, kind: Kind) -> bool
    ensures { result ≡ eqb byte (byte_of kind) }
{
    Kind::try_from(byte) == Ok(kind)
}

// The letter of the kind with this byte. No event of an accepted file is of no kind; it would be a release.
fn kind_letter(kind: u8) -> u8
    ensures { result ≡ spec.kind_letter kind }
{
    match Kind::try_from(kind).unwrap_or(Kind::Release) {
        Kind::Reserve => b'r',
        Kind::Commit => b'c',
        Kind::Take => b't',
        Kind::Truncate => b'k',
        Kind::Release => b'd',
    }
}

// The letter of a mode.
fn mode_letter(mode: PoolMode) -> u8
    ensures { result ≡ spec.mode_letter mode }
{
    match mode {
        PoolMode::Back => b'B',
        PoolMode::Front(_) => b'F',
        PoolMode::Alloc => b'A',
    }
}

// The start and length that a take shows: its slice's, or with slot 0 the copied length.
fn take_extent(a: Told) -> Extent
    ensures { result ≡ spec.take_extent (spec.said a) }
{
    if a.handle.slot == 0 {
        return Extent {
            start: 0,
            length: a.copied,
        };
    }
    Extent {
        start: a.handle.start as u64,
        length: a.handle.length as u64,
    }
}

// The start and length that a release shows: its handle's.
fn release_extent(h: Handle, a: Told) -> Extent
    ensures { result ≡ spec.release_extent h (spec.said a) }
{
    if a.refusal != 0 {
        return Extent {
            start: 0,
            length: 0,
        };
    }
    Extent {
        start: h.start as u64,
        length: h.length as u64,
    }
}

// The start and length to show; a release has the handle.
fn extent_of(kind: u8, h: Handle, a: Told) -> Extent
    ensures { result ≡ spec.extent_of kind h (spec.said a) }
{
    match Kind::try_from(kind) {
        Ok(Kind::Take) => take_extent(a),
        Ok(Kind::Release) => release_extent(h, a),
        Ok(Kind::Reserve | Kind::Commit | Kind::Truncate) | Err(_) => Extent {
            start: a.place.start,
            length: a.place.length,
        },
    }
}

// Is the frame in the pool?
fn in_pool(mode: PoolMode) -> bool
    ensures { result ≡ spec.in_pool mode }
{
    matches!(mode, PoolMode::Back | PoolMode::Front(_))
}

// The frame's start before and after, where the line shows their difference, and otherwise twice 0.
fn starts_of(kind: u8, r: &BufferPool, q: &BufferPool) -> Starts
    ensures { result ≡ spec.starts_of kind r.now q.now }
{
    if is_kind(kind, Kind::Reserve) && in_pool(r.mode) && in_pool(q.mode) {
        return Starts {
            before: r.raw_offset,
            after: q.raw_offset,
        };
    }
    Starts {
        before: 0,
        after: 0,
    }
}

// What the line shows of an event on the record `r`, which left the record `q` and answered so.
fn shown_of(kind: u8, r: &BufferPool, h: Handle, q: &BufferPool, a: Told) -> Shown
    ensures { result ≡ spec.shown_so kind r.now h q.now (spec.said a) }
{
    Shown {
        kind: kind_letter(kind),
        refusal: a.refusal,
        mode: mode_letter(q.mode),
        live: q.live,
        place: extent_of(kind, h, a),
        frame: starts_of(kind, r, q),
    }
}

// ---- The event

// How many of the trace bytes that are left the event copies: none unless it is a commit within its reservation.
fn filling(r: &BufferPool, e: Event, left: usize) -> usize
    ensures { (result ≡ spec.filling r.now e left) × (result ≤ left) }
{
    if is_kind(e.kind, Kind::Commit) && e.number as u64 <= r.reserved {
        return left.min(e.number as usize);
    }
    0
}

// The next state and the line, after a call and with `next` trace bytes used.
fn step_of(s: State, e: Event, h: Handle, next: usize, c: Called) -> Step
    requires { spec.Within (2 ^ 63) s.tally }
    ensures { result ≡ spec.step_of s e h next c }
{
    let a = told_of(c);
    Step {
        state: State {
            pool: c.pool,
            next,
            tally: counted(s.tally, a),
        },
        shown: shown_of(e.kind, &s.pool, h, &c.pool, a),
    }
}

// One event of a run over these trace bytes.
pub(crate) fn run_event(s: State, m: &mut Lent, bytes: &[u8], e: Event) -> Step
    requires next_in_bounds { (s.next ≤ length bytes.now) × spec.Within (2 ^ 63) s.tally × (s.pool.slots ≤ most_slots) }
    requires bytes_bound { length bytes.now ≤ 2 ^ 32 }
    ensures { spec.stepped result (spec.memory_of m.new) m.new.destination.now ≡ spec.step bytes.now (spec.running s (spec.memory_of m.old) m.old.destination.now) e }
{
    let r = s.pool;
    let k = filling(&r, e, bytes.len() - s.next);
    let end = s.next + k;
    let h = Slots::new(&r).handle_of(e.caller, e.number);
    m.fill(&r, &bytes[s.next..end]);
    let c = m.call(r, e, h);
    step_of(s, e, h, end, c)
}
