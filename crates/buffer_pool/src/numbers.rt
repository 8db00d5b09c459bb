// The numbers of a record, by value, and its arrays, to be lent. A call decides on the numbers while the arrays stay where they are.
ghost use Rattle.std.specs.Prelude.{◌≡◌, ◌+◌, ◌≤◌};
ghost use Rattle.buffer_pool.specs.Deciding.{Worded};
ghost use Rattle.buffer_pool.specs.Record.{placed, framed};
ghost use Rattle.buffer_pool.specs.Numbers.{Whole, numbers_of, entries_of, with_entries, bare};

use crate::buffer_pool::{BufferPool, Entries, PoolMode};

// The fields of `BufferPool`, but for its arrays.
#[derive(Clone, Copy)]
pub struct Numbers {
    pub capacity: u64,
    pub overflow: u64,
    pub slots: usize,
    pub live: u16,
    pub back_start: usize,
    pub back_len: usize,
    pub used: usize,
    pub raw_offset: u64,
    pub raw_len: u64,
    pub mode: PoolMode,
    pub kept: u64,
    pub cursor: u64,
    pub reserved: u64,
}

// The numbers of a record that passed the soundness test, as far as placing rests on it: the slot count is within the arrays', the live
// word has no bit beyond it, and the back lies in the slots.
#[derive(Clone, Copy)]
pub(crate) struct Tested {
    pub(crate) n: Numbers,
    ghost worded: { Worded (bare n) },
    ghost back_within: { n.back_start + n.back_len ≤ n.slots },
}

impl Numbers {
    // The numbers with another mode, back, count of used slots and frame start.
    pub(crate) fn placed(
        self,
        mode: PoolMode,
        back_start: usize,
        back_len: usize,
        used: usize,
        raw_offset: u64,
    ) -> Self
        ensures { result ≡ numbers_of (placed (bare self) mode back_start back_len used raw_offset) }
    {
        Numbers {
            mode,
            back_start,
            back_len,
            used,
            raw_offset,
            ..self
        }
    }

    // The numbers with others of the frame, in both memories.
    pub(crate) fn framed(
        self,
        mode: PoolMode,
        raw_offset: u64,
        raw_len: u64,
        kept: u64,
        cursor: u64,
        reserved: u64,
    ) -> Self
        ensures { result ≡ numbers_of (framed (bare self) mode raw_offset raw_len kept cursor reserved) }
    {
        Numbers {
            mode,
            raw_offset,
            raw_len,
            kept,
            cursor,
            reserved,
            ..self
        }
    }
}

impl Numbers {
    // The record of these numbers and entries.
    pub(crate) fn filled(self, entries: &Entries) -> BufferPool
        ensures { result ≡ with_entries self entries.now }
    {
        let mode = self.mode;
        let starts = entries.starts;
        let lengths = entries.lengths;
        let serials = entries.serials;
        let given = entries.given;
        let callers = entries.callers;
        BufferPool {
            capacity: self.capacity,
            overflow: self.overflow,
            slots: self.slots,
            live: self.live,
            starts,
            lengths,
            serials,
            given,
            callers,
            back_start: self.back_start,
            back_len: self.back_len,
            used: self.used,
            raw_offset: self.raw_offset,
            raw_len: self.raw_len,
            mode,
            kept: self.kept,
            cursor: self.cursor,
            reserved: self.reserved,
        }
    }
}

impl BufferPool {
    // The record's numbers. That the arrays which are left out have a place for every slot and caller, the types say.
    pub fn numbers(self) -> Numbers
        ensures { (result ≡ numbers_of self) × (Whole (entries_of self)) }
    {
        let mode = self.mode;
        Numbers {
            capacity: self.capacity,
            overflow: self.overflow,
            slots: self.slots,
            live: self.live,
            back_start: self.back_start,
            back_len: self.back_len,
            used: self.used,
            raw_offset: self.raw_offset,
            raw_len: self.raw_len,
            mode,
            kept: self.kept,
            cursor: self.cursor,
            reserved: self.reserved,
        }
    }

    // The record's arrays.
    pub fn entries(self) -> Entries
        ensures { result ≡ entries_of self }
    {
        let starts = self.starts;
        let lengths = self.lengths;
        let serials = self.serials;
        let given = self.given;
        let callers = self.callers;
        Entries {
            starts,
            lengths,
            serials,
            given,
            callers,
        }
    }
}
