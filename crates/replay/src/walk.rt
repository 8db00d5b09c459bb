// The walk over a trace: its events are run one after the other, and each gives a line.
ghost use Rattle.std.specs.Prelude.{◌≡◌, true, ◌+◌, ◌≤◌, ◌<◌, ◌^◌, Ok, length};
ghost use Rattle.buffer_pool.specs.Record.{rust_slots};
ghost use Rattle.buffer_pool.specs.Soundness.{sound};
ghost use Rattle.trace.specs.Trace.{size_limit, reading};
ghost use Rattle.trace.specs.Content.{content};
ghost use Rattle.replay.specs.Text.{output, wrote, Writes};
ghost use Rattle.replay.specs.Run.{Within, memory_of, running, left, step};
ghost use Rattle.replay.specs.Listing as spec;

use crate::event::{State, Tally, run_event};
use crate::lent::Lent;
use crate::listing::{put_first, put_last, put_line};
use crate::text::Writer;
use buffer_pool::buffer_pool::BufferPool;
use trace::{Event, Header};

// One event, and its line.
fn put_event(w: &mut Writer, s: State, m: &mut Lent, bytes: &[u8], number: u64, e: Event) -> State
    requires at_bound { (w.old.at < 2 ^ 58) × (sound rust_slots s.pool ≡ true) × (s.next ≤ length bytes.now) }
    requires within { Within (2 ^ 63) s.tally }
    requires bytes_bound { length bytes.now ≤ 2 ^ 32 }
    ensures text { Writes w.old w.new (spec.line number (step bytes.now (running s (memory_of m.old) m.old.destination.now) e).step.shown) }
    ensures run_after { running result (memory_of m.new) m.new.destination.now ≡ left (step bytes.now (running s (memory_of m.old) m.old.destination.now) e) }
    ensures at { w.new.at ≤ w.old.at + 128 }
{
    let step = run_event(s, m, bytes, e);
    put_line(w, number, step.shown);
    step.state
}

// The events of the file, each with its line, and line T.
fn put_events(w: &mut Writer, begun: State, m: &mut Lent, file: &[u8], events: u32)
    requires at_bound { (w.old.at ≤ 1024) × (sound rust_slots begun.pool ≡ true) × (begun.next ≤ length (content file.now).bytes) }
    requires within { Within 0 begun.tally }
    requires file_bound { length file.now ≤ 2 ^ 32 }
    requires events_value { events ≡ length (content file.now).events }
    ensures { Writes w.old w.new (spec.lines (content file.now).bytes (running begun (memory_of m.old) m.old.destination.now) 0 (content file.now).events) }
{
    let bytes = trace::bytes(file);
    let mut s = begun;
    for i in 0..events {
        let e = trace::event_at(file, i);
        s = put_event(w, s, m, bytes, i as u64 + 1, e);
    }
    put_last(w, s.tally, &s.pool);
}

// Line one, the events on a new pool over these memories, and line T.
fn put_run(out: &mut [u8], m: &mut Lent, file: &[u8], events: u32) -> usize
    requires file_bound { length file.now ≤ 2 ^ 32 }
    requires events_value { events ≡ length (content file.now).events }
    ensures { output result out.new ≡ wrote (output 0 out.old) (spec.listing_on (memory_of m.old) m.old.destination.now (content file.now)) }
{
    let mut w = Writer::new(out, 0);
    let pool = &mut *m.pool;
    let overflow = &mut *m.overflow;
    put_first(&mut w, pool.len() as u64, overflow.len() as u64);
    let c = BufferPool::new(BufferPool::POOL_CAPACITY, pool, overflow);
    let begun = State {
        pool: c.pool,
        next: 0,
        tally: Tally {
            done: 0,
            refused: 0,
            takes: 0,
            spilled: 0,
        },
    };
    put_events(&mut w, begun, m, file, events);
    w.at
}

// A memory of zeros, as long as the longest that a trace asks for: the memory of the replay is fixed.
fn zeros() -> [u8; trace::SIZE_LIMIT as usize]
    ensures { (size_limit ≡ length result) × (result ≡ spec.zeros) }
{
    [0; trace::SIZE_LIMIT as usize]
}

// The listing of an accepted file, run on memories of zeros.
pub(crate) fn put_trace(out: &mut [u8], file: &[u8], h: Header) -> usize
    requires { reading file.now ≡ Ok h }
    ensures { output result out.new ≡ wrote (output 0 out.old) (spec.listing_of (content file.now)) }
{
    let mut pool = zeros();
    let mut overflow = zeros();
    let mut destination = zeros();
    let n = h.capacity as usize;
    let k = h.overflow as usize;
    let mut lent = Lent {
        pool: &mut pool[..n],
        overflow: &mut overflow[..k],
        destination: &mut destination[..k],
    };
    put_run(out, &mut lent, file, h.events)
}
