// What the run reads off the slots of the pool's record: the slice that a caller and a serial name, and the bytes held.
ghost use Rattle.std.specs.Prelude.{◌≡◌, ◌≤◌, IfSome};
ghost use Rattle.laws.specs.Live.{slot_mask, live_at};
ghost use Rattle.buffer_pool.specs.Record.{most_slots};
ghost use Rattle.replay.specs.Slots as spec;
ghost use Rattle.replay.specs.HeldBytes as held_bytes;

use buffer_pool::buffer_pool::BufferPool;
use buffer_pool::slice::Handle;

// The slots of a pool's record, which its arrays have places for.
#[derive(Clone, Copy)]
pub(crate) struct Slots<'a> {
    r: &'a BufferPool,
    ghost few: { r.now.slots ≤ most_slots },
}

// A slot is a number with its range in the contracts that take one: `slot_of` counts with it and the arrays are read at it, so that a type
// of its own would be built and taken apart at each use.

impl<'a> Slots<'a> {
    // The slots of this record.
    pub(crate) fn new(r: &'a BufferPool) -> Slots<'a>
        requires { r.now.slots ≤ most_slots }
        ensures { result.r.now ≡ r.now }
    {
        Slots { r }
    }

    // The bit of slot `p`: "slot p is the p-th bit from the top of a word that wide". The pool's own test of a slot has a `requires`,
    // so that it is not public.
    fn mask(self, p: usize) -> u16
        requires { (1 ≤ p) × (p ≤ self.r.now.slots) }
        ensures { result ≡ slot_mask self.entry.r.now.slots p }
    {
        1u16 << (self.r.slots - p)
    }

    // Is slot `p` live?
    fn is_live(self, p: usize) -> bool
        requires { (1 ≤ p) × (p ≤ self.r.now.slots) }
        ensures { result ≡ live_at self.entry.r.now.slots self.entry.r.now.live p }
    {
        self.r.live & self.mask(p) != 0
    }

    // Is slot `p` live, and has it this caller and this serial?
    fn bears(self, caller: u8, serial: u32, p: usize) -> bool
        requires { (1 ≤ p) × (p ≤ self.r.now.slots) }
        ensures { result ≡ spec.bears self.entry.r.now.slots self.entry.r.now.live self.entry.r.now.callers self.entry.r.now.serials caller serial p }
    {
        self.is_live(p) && self.r.callers[p - 1] == caller && self.r.serials[p - 1] == serial
    }

    // The loops below are no `find` and no `max`: a closure would be given numbers of which its `requires` must first be shown, as the
    // `for` shows it of its index.

    // The first live slot with this caller and this serial, if a live one has both.
    fn slot_of(self, caller: u8, serial: u32) -> Option<usize>
        ensures slot { result ≡ spec.slot_of self.entry.r.now caller serial }
        ensures in_range { IfSome result (λ p. (1 ≤ p) × (p ≤ most_slots)) }
    {
        for i in 0..self.r.slots {
            if self.bears(caller, serial, i + 1) {
                return Some(i + 1);
            }
        }
        None
    }

    // The handle of the live slice with this caller and this serial, and one of no slot where no live slice has both.
    pub(crate) fn handle_of(self, caller: u8, serial: u32) -> Handle
        ensures { result ≡ spec.handle_of self.entry.r.now caller serial }
    {
        match self.slot_of(caller, serial) {
            Some(p) => Handle {
                slot: p as u8,
                start: self.r.starts[p - 1],
                length: self.r.lengths[p - 1],
                serial,
                caller,
            },
            None => Handle {
                slot: 0,
                start: 0,
                length: 0,
                serial,
                caller,
            },
        }
    }

    // The end of slot `p`'s slice, and 0 where it is free.
    fn live_end(self, p: usize) -> u64
        requires { (1 ≤ p) × (p ≤ self.r.now.slots) }
        ensures { result ≡ held_bytes.live_end self.entry.r.now p }
    {
        if self.is_live(p) {
            self.r.starts[p - 1] as u64 + self.r.lengths[p - 1] as u64
        } else {
            0
        }
    }

    // The held bytes: the highest end of a live slice, and 0 without one.
    pub(crate) fn held(self) -> u64
        ensures { result ≡ held_bytes.held self.entry.r.now }
    {
        let mut highest = 0;
        for i in 0..self.r.slots {
            highest = highest.max(self.live_end(i + 1));
        }
        highest
    }
}
