// The memory of the pool: bounds, the ends of slices, and bytes copied, moved and cleared (`InnerMemory` in
// buffer_pool/mod.rs of the Rust).
ghost use Rattle.std.specs.Prelude.{◌≡◌, ◌+◌, ◌≤◌, leb, length};
ghost use Rattle.laws.specs.Lists.{copied, moved, zeroed};
ghost use Rattle.buffer_pool.specs.Record.{most_slots, after};

use crate::buffer_pool::Entries;

// Do `used` and `len` bytes from `offset` on lie below `end`? Compared by subtraction, so that no sum can wrap:
// `in_bounds` and `has_capacity_until_offset`.
pub(crate) fn in_bounds(end: u64, offset: u64, used: u64, len: u64) -> bool
    ensures { result ≡ leb (offset + used + len) end }
{
    offset <= end && used <= end - offset && len <= end - offset - used
}

// The end of the slice of slot `len`, and 0 for no slot.
pub(crate) fn raw_offset_from_len(entries: &Entries, len: usize) -> u64
    requires { len ≤ most_slots }
    ensures { result ≡ after entries.now.starts entries.now.lengths len }
{
    if len == 0 {
        return 0;
    }
    let index = len - 1;
    entries.starts[index] as u64 + entries.lengths[index] as u64
}

// Ranges are numbers beside the slice that they lie in, and each `requires` says that they do: a frame's place is one of the record's
// numbers, which hold for one memory or the other by the mode.

// `len` bytes of `src` from `start` on go to `dst` from `to` on.
// A loop: with the library's `copy_from_slice` the large frames that move (docs/BENCHMARKS.md) take 240 ns a call, not 204.
pub(crate) fn copy_between(src: &[u8], start: usize, len: usize, dst: &mut [u8], to: usize)
    requires { (start + len ≤ length src.now) × (to + len ≤ length dst.old) }
    ensures { dst.new ≡ copied src.now start len dst.old to }
{
    for i in 0..len {
        dst[to + i] = src[start + i];
    }
}

// The bytes from `start` up to `end` are 0.
pub(crate) fn fill_zero(m: &mut [u8], start: usize, end: usize)
    requires { (start ≤ end) × (end ≤ length m.old) }
    ensures { m.new ≡ zeroed m.old start end }
{
    m[start..end].fill(0);
}

// A move to a place that is not behind: from the first byte on.
fn move_down(m: &mut [u8], start: usize, len: usize, to: usize)
    requires { (start + len ≤ length m.old) × (to ≤ start) }
    ensures { m.new ≡ moved m.old start len to }
{
    for i in 0..len {
        m[to + i] = m[start + i];
    }
}

// A move to a place that is not before: from the last byte on.
fn move_up(m: &mut [u8], start: usize, len: usize, to: usize)
    requires { (to + len ≤ length m.old) × (start ≤ to) }
    ensures { m.new ≡ moved m.old start len to }
{
    for i in (0..len).rev() {
        m[to + i] = m[start + i];
    }
}

// `len` bytes from `start` on go to `to` and on, in one memory; the two places may overlap. Not the library's `copy_within`, for which
// who links the archive would have to bring a `memmove` (docs/TRUSTED.md).
pub(crate) fn copy_within(m: &mut [u8], start: usize, len: usize, to: usize)
    requires { (start + len ≤ length m.old) × (to + len ≤ length m.old) }
    ensures { m.new ≡ moved m.old start len to }
{
    if to <= start {
        move_down(m, start, len, to);
    } else {
        move_up(m, start, len, to);
    }
}
