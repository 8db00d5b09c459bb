// A slice living in the pool, and the marks of the live ones (slice.rs of the Rust).
ghost use Rattle.std.specs.Prelude.{◌≡◌, ◌-◌, ◌/◌, ◌≤◌, ◌<◌, ◌^◌};
ghost use Rattle.std.specs.Int.Count.{count_leading_zeros, count_trailing_zeros};
ghost use Rattle.laws.specs.Live.{slot_mask, claimed, released, live_at, last_live};
ghost use Rattle.buffer_pool.specs.Record.{most_slots};

use crate::buffer_pool::BufferPool;

// What a take gives for a slice: its slot, its place in the pool memory, its serial and its caller.
#[derive(Clone, Copy)]
pub struct Handle {
    pub slot: u8,
    pub start: u32,
    pub length: u32,
    pub serial: u32,
    pub caller: u8,
}

// The marks of the live slots of a pool (`SharedState` of the Rust): slot p of so many is bit `slots` - p of the word. It is built where it
// is used and not by a method of `Tested`: proofs see through a literal, and would have to rewrite what a method gives (tried in ten places).
#[derive(Clone, Copy)]
pub(crate) struct SharedState {
    pub(crate) slots: usize,
    pub(crate) live: u16,
    ghost few: { slots ≤ most_slots },
    ghost fits: { live < 2 ^ slots },
}

// The zeros at the bottom of a word.
fn zeros(live: u16) -> usize
    ensures { (result ≡ count_trailing_zeros most_slots live) × (result ≤ most_slots) }
{
    u16::trailing_zeros(live) as usize
}

// A slot's position is a number with its range in the contracts that take one: places and lengths are counted with it, in this file and
// outside, and a type of its own would be built and taken apart at each use.

impl SharedState {
    // The bit that tracks slot `position`.
    fn mask(self, position: usize) -> u16
        requires { (1 ≤ position) × (position ≤ self.slots) }
        ensures { result ≡ slot_mask self.slots position }
    {
        1u16 << (self.slots - position)
    }

    // The live slots with slot `position` taken.
    pub(crate) fn claim(self, position: usize) -> u16
        requires { (1 ≤ position) × (position ≤ self.slots) }
        ensures { result ≡ claimed self.slots self.live position }
    {
        self.live | self.mask(position)
    }

    // The live slots with slot `position` free.
    pub(crate) fn release(self, position: usize) -> u16
        requires { (1 ≤ position) × (position ≤ self.slots) }
        ensures { result ≡ released self.slots self.live position }
    {
        self.live & !self.mask(position)
    }

    // Is slot `position` live?
    pub(crate) fn is_live(self, position: usize) -> bool
        requires { (1 ≤ position) × (position ≤ self.slots) }
        ensures { result ≡ live_at self.slots self.live position }
    {
        self.live & self.mask(position) != 0
    }

    // The free slots before the first live one: the word's own leading zeros are 16 - slots more.
    pub(crate) fn leading(self) -> usize
        ensures { (result ≡ count_leading_zeros self.slots self.live) × (result ≤ self.slots) }
    {
        u16::leading_zeros(self.live) as usize - (BufferPool::MOST_SLOTS - self.slots)
    }

    // The free slots after the last live one.
    pub(crate) fn trailing(self) -> usize
        ensures { (result ≡ count_trailing_zeros self.slots self.live) × (result ≤ self.slots) }
    {
        self.slots.min(zeros(self.live))
    }

    // The bits of the slots up to `back`, shifted down.
    pub(crate) fn front_bits(self, back: usize) -> u16
        requires { (1 ≤ back) × (back ≤ self.slots) }
        ensures { (result ≡ self.live / 2 ^ (self.slots - back)) × (result < 2 ^ back) }
    {
        self.live >> (self.slots - back)
    }

    // The last live slot of those up to `back`, and 0 where none of them is live: the zeros below their bits tell it.
    pub(crate) fn last_front(self, back: usize) -> usize
        requires { back ≤ self.slots }
        ensures { (result ≡ last_live self.slots self.live back) × (result ≤ back) }
    {
        if back == 0 {
            return 0;
        }
        let front = self.front_bits(back);
        if front == 0 {
            return 0;
        }
        let below = SharedState {
            slots: self.slots,
            live: front,
        };
        back - below.trailing()
    }
}
