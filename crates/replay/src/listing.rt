// The lines of a listing.
ghost use Rattle.std.specs.Prelude.{◌≡◌, ◌+◌, ◌≤◌, ◌<◌, ◌^◌};
ghost use Rattle.buffer_pool.specs.Record.{rust_slots, most_slots};
ghost use Rattle.replay.specs.Text.{output, wrote, Writes, spaced, signed};
ghost use Rattle.replay.specs.Run.{Within};
ghost use Rattle.replay.specs.Listing as spec;

use crate::event::{Shown, Starts, Tally};
use crate::percent::overflow_percent;
use crate::slots::Slots;
use crate::text::Writer;
use buffer_pool::buffer_pool::BufferPool;
use trace::Refusal;

// ---- The move

// Frame start after minus before, signed.
fn moved(s: Starts) -> i64
    requires { (s.before < 2 ^ 32) × (s.after < 2 ^ 32) }
    ensures { result ≡ spec.move_of s }
{
    s.after as i64 - s.before as i64
}

// A space and a signed number.
fn put_signed(w: &mut Writer, v: i64)
    requires { w.old.at < 2 ^ 60 }
    ensures text { Writes w.old w.new (spaced (signed v)) }
    ensures at { w.new.at ≤ w.old.at + 22 }
{
    let size = v.unsigned_abs();
    if v < 0 {
        w.put_letter(b'-');
        w.put_decimal(size);
        return;
    }
    w.put_number(size);
}

// ---- The lines

// The sizes.
pub(crate) fn put_first(w: &mut Writer, capacity: u64, overflow: u64)
    requires { w.old.at < 2 ^ 59 }
    ensures text { Writes w.old w.new (spec.first_line capacity overflow) }
    ensures at { w.new.at ≤ w.old.at + 64 }
{
    w.put_some(b"pool");
    w.put_number(capacity);
    w.put_some(b" overflow");
    w.put_number(overflow);
    w.put(b'\n');
}

// An event's number, kind, refusal or 0, mode and live bits, as many as a trace's pool has slots.
fn put_head(w: &mut Writer, event: u64, s: Shown)
    requires { (w.old.at < 2 ^ 59) × (s.live < 2 ^ rust_slots) }
    ensures text { Writes w.old w.new (spec.line_head event s) }
    ensures at { w.new.at ≤ w.old.at + 48 }
{
    w.put_decimal(event);
    w.put_letter(s.kind);
    w.put_number(s.refusal as u64);
    w.put_letter(s.mode);
    w.put_hex(s.live as u8);
}

// An event's line: the head, start, length and move.
pub(crate) fn put_line(w: &mut Writer, event: u64, s: Shown)
    requires { (w.old.at < 2 ^ 58) × (s.live < 2 ^ rust_slots) × (s.frame.before < 2 ^ 32) × (s.frame.after < 2 ^ 32) }
    ensures text { Writes w.old w.new (spec.line event s) }
    ensures at { w.new.at ≤ w.old.at + 128 }
{
    put_head(w, event, s);
    w.put_number(s.place.start);
    w.put_number(s.place.length);
    put_signed(w, moved(s.frame));
    w.put(b'\n');
}

// Line T.
pub(crate) fn put_last(w: &mut Writer, t: Tally, r: &BufferPool)
    requires { (w.old.at < 2 ^ 58) × Within (2 ^ 32) t × (r.now.slots ≤ most_slots) }
    ensures text { Writes w.old w.new (spec.last_line t r.now) }
    ensures at { w.new.at ≤ w.old.at + 128 }
{
    let percent = overflow_percent(t);
    let held = Slots::new(r).held();
    w.put(b'T');
    w.put_number(t.done);
    w.put_number(t.refused);
    w.put_number(percent);
    w.put_number(held);
    w.put(b'\n');
}

// ---- A refused file

// The word, the number of the refusal, and the bad event, counted from 1.
pub(crate) fn put_refused(out: &mut [u8], refusal: Refusal) -> usize
    ensures { output result out.new ≡ wrote (output 0 out.old) (spec.refused refusal) }
{
    let mut w = Writer::new(out, 0);
    w.put_some(b"refused");
    w.put_number(refusal.number() as u64);
    if let Refusal::BadEvent(event) = refusal {
        w.put_number(event as u64);
    }
    w.put(b'\n');
    w.at
}
