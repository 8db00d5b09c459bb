// The views: frame, reservation and slice as parts of the lent memories, never copies; the number of a view's refusal; and writes of
// one byte through a view.
ghost use Rattle.std.specs.Prelude.{◌≡◌, ◌+◌, ◌≤◌, ltb, length, set};
ghost use Rattle.laws.specs.Tests.{pick};
ghost use Rattle.laws.specs.Lists as lists;
ghost use Rattle.buffer_pool.specs.Moves.{memories};
ghost use Rattle.buffer_pool.specs.Values as values;
ghost use Rattle.buffer_pool.specs.Calls as spec;

use crate::buffer_pool::{BufferPool, Memory, Place, no_place};
use crate::refusals::Refusal;
use crate::slice::Handle;

// Where a view lies. A refused view is the empty part at the pool memory's start, so that nothing is written through it.
fn view_place(view: Result<Place, Refusal>) -> Place
    ensures { result ≡ values.view_place view }
{
    view.unwrap_or(no_place())
}

// The number of a view's refusal, or 0.
fn view_number(view: Result<Place, Refusal>) -> u8
    ensures { result ≡ values.view_refusal view }
{
    match view {
        Ok(_) => 0,
        Err(why) => why.number(),
    }
}

// What a write through a view answers: done, or refused as the view is.
fn told(view: Result<Place, Refusal>) -> Result<(), Refusal>
    ensures { result ≡ values.told view }
{
    view.map(|_| ())
}

// That a place lies in its memory is asked by six functions: the memories are lent apart, so that no type has both.

// The part of a memory at a place.
fn part<'a>(memory: &'a [u8], place: Place) -> &'a [u8]
    requires { place.start + place.length ≤ length memory.now }
    ensures result_value { result.now ≡ lists.part memory.now place.start place.length }
    ensures ref_ptr_value { result.ref_ptr ≡ spec.moved_on memory.entry.ref_ptr place.start }
{
    let start = place.start as usize;
    let end = start + place.length as usize;
    &memory[start..end]
}

// The same, to be written. This and the functions below stand twice: no generic function is over `&` and `&mut`.
fn part_mut<'a>(memory: &'a mut [u8], place: Place) -> &'a mut [u8]
    requires { place.start + place.length ≤ length memory.old }
    ensures result_value { result.now ≡ lists.part memory.old place.start place.length }
    ensures ref_ptr_value { result.ref_ptr ≡ spec.moved_on memory.entry.ref_ptr place.start }
{
    let start = place.start as usize;
    let end = start + place.length as usize;
    &mut memory[start..end]
}

// The part of the place's memory.
fn view<'a>(pool: &'a [u8], overflow: &'a [u8], place: Place) -> &'a [u8]
    requires { spec.Lies (memories pool.now overflow.now) place }
    ensures result_value { result.now ≡ spec.bytes_at (memories pool.now overflow.now) place }
    ensures ref_ptr_value { result.ref_ptr ≡ spec.place_at pool.entry.ref_ptr overflow.entry.ref_ptr place }
{
    match place.memory {
        Memory::Pool => part(pool, place),
        Memory::Overflow => part(overflow, place),
    }
}

// The same, to be written.
fn view_mut<'a>(pool: &'a mut [u8], overflow: &'a mut [u8], place: Place) -> &'a mut [u8]
    requires { spec.Lies (memories pool.old overflow.old) place }
    ensures result_value { result.now ≡ spec.bytes_at (memories pool.old overflow.old) place }
    ensures ref_ptr_value { result.ref_ptr ≡ spec.place_at pool.entry.ref_ptr overflow.entry.ref_ptr place }
{
    match place.memory {
        Memory::Pool => part_mut(pool, place),
        Memory::Overflow => part_mut(overflow, place),
    }
}

// Sets byte `index` of a place in this memory; past the place's end, none.
fn set_byte(memory: &mut [u8], place: Place, index: u64, byte: u8)
    requires { place.start + place.length ≤ length memory.old }
    ensures { memory.new ≡ pick (ltb index place.length) (set memory.old (place.start + index) byte) memory.old }
{
    if place.length <= index {
        return;
    }
    let i = (place.start + index) as usize;
    memory[i] = byte;
}

// Sets byte `index` of a place in its memory; past the place's end, none.
fn write(pool: &mut [u8], overflow: &mut [u8], place: Place, index: u64, byte: u8)
    requires { spec.Lies (memories pool.old overflow.old) place }
    ensures { memories pool.new overflow.new ≡ spec.written (memories pool.old overflow.old) place index byte }
{
    match place.memory {
        Memory::Pool => set_byte(pool, place, index, byte),
        Memory::Overflow => set_byte(overflow, place, index, byte),
    }
}

// Frame, reservation and slice have the same functions, each a name of the pool's: what differs is the view, and all hand it to the
// functions above. One function for the three would take the function of the view as a closure, under the same names.

impl BufferPool {
    // Where the frame lies, by mode in the pool memory or in the overflow. Refused with 1 and 2.
    pub fn frame_view(self, pool: &[u8], overflow: &[u8]) -> Result<Place, Refusal>
        ensures { result ≡ spec.frame_view self.slots self (memories pool.now overflow.now) }
    {
        let entries = self.entries();
        self.numbers().frame_view(&entries, pool, overflow)
    }

    // Where the reservation lies: after the frame, in the same memory. Refused with 1 and 2.
    pub fn reservation_view(self, pool: &[u8], overflow: &[u8]) -> Result<Place, Refusal>
        ensures { result ≡ spec.reservation_view self.slots self (memories pool.now overflow.now) }
    {
        let entries = self.entries();
        self.numbers().reservation_view(&entries, pool, overflow)
    }

    // Where the slice of a handle lies. Refused with 1, 2, and with 7 if the handle names no live slice.
    pub fn slice_view(self, pool: &[u8], overflow: &[u8], h: Handle) -> Result<Place, Refusal>
        ensures { result ≡ spec.slice_view self.slots self (memories pool.now overflow.now) h }
    {
        let entries = self.entries();
        self.numbers().slice_view(&entries, pool, overflow, h)
    }

    // The frame, a part of the pool memory or of the overflow by mode. Refused with 1 and 2 (`frame_number`).
    pub fn frame<'a>(self, pool: &'a [u8], overflow: &'a [u8]) -> &'a [u8]
        ensures result_value { result.now ≡ spec.bytes_at (memories pool.now overflow.now) (values.view_place (spec.frame_view self.slots self (memories pool.now overflow.now))) }
        ensures ref_ptr_value { result.ref_ptr ≡ spec.place_at pool.entry.ref_ptr overflow.entry.ref_ptr (values.view_place (spec.frame_view self.slots self (memories pool.now overflow.now))) }
    {
        let v = self.frame_view(pool, overflow);
        view(pool, overflow, view_place(v))
    }

    // The same, to be written.
    pub fn frame_mut<'a>(self, pool: &'a mut [u8], overflow: &'a mut [u8]) -> &'a mut [u8]
        ensures result_value { result.now ≡ spec.bytes_at (memories pool.old overflow.old) (values.view_place (spec.frame_view self.slots self (memories pool.old overflow.old))) }
        ensures ref_ptr_value { result.ref_ptr ≡ spec.place_at pool.entry.ref_ptr overflow.entry.ref_ptr (values.view_place (spec.frame_view self.slots self (memories pool.old overflow.old))) }
    {
        let v = self.frame_view(pool, overflow);
        view_mut(pool, overflow, view_place(v))
    }

    // The number of the refusal of a view of the frame, or 0.
    pub fn frame_number(self, pool: &[u8], overflow: &[u8]) -> u8
        ensures { result ≡ values.view_refusal (spec.frame_view self.slots self (memories pool.now overflow.now)) }
    {
        let v = self.frame_view(pool, overflow);
        view_number(v)
    }

    // Sets byte `index` of the frame; past its end, none. Refused as the view is: with 1 and 2.
    pub fn write_frame(
        self,
        pool: &mut [u8],
        overflow: &mut [u8],
        index: u64,
        byte: u8,
    ) -> Result<(), Refusal>
        ensures value { result ≡ values.told (spec.frame_view self.slots self (memories pool.old overflow.old)) }
        ensures memories_after { memories pool.new overflow.new ≡ spec.written (memories pool.old overflow.old) (values.view_place (spec.frame_view self.slots self (memories pool.old overflow.old))) index byte }
    {
        let v = self.frame_view(pool, overflow);
        write(pool, overflow, view_place(v), index, byte);
        told(v)
    }

    // The reservation, after the frame in the same memory. Refused with 1 and 2 (`reservation_number`).
    pub fn reservation<'a>(self, pool: &'a [u8], overflow: &'a [u8]) -> &'a [u8]
        ensures result_value { result.now ≡ spec.bytes_at (memories pool.now overflow.now) (values.view_place (spec.reservation_view self.slots self (memories pool.now overflow.now))) }
        ensures ref_ptr_value { result.ref_ptr ≡ spec.place_at pool.entry.ref_ptr overflow.entry.ref_ptr (values.view_place (spec.reservation_view self.slots self (memories pool.now overflow.now))) }
    {
        let v = self.reservation_view(pool, overflow);
        view(pool, overflow, view_place(v))
    }

    // The same, to be written.
    pub fn reservation_mut<'a>(self, pool: &'a mut [u8], overflow: &'a mut [u8]) -> &'a mut [u8]
        ensures result_value { result.now ≡ spec.bytes_at (memories pool.old overflow.old) (values.view_place (spec.reservation_view self.slots self (memories pool.old overflow.old))) }
        ensures ref_ptr_value { result.ref_ptr ≡ spec.place_at pool.entry.ref_ptr overflow.entry.ref_ptr (values.view_place (spec.reservation_view self.slots self (memories pool.old overflow.old))) }
    {
        let v = self.reservation_view(pool, overflow);
        view_mut(pool, overflow, view_place(v))
    }

    // The number of the refusal of a view of the reservation, or 0.
    pub fn reservation_number(self, pool: &[u8], overflow: &[u8]) -> u8
        ensures { result ≡ values.view_refusal (spec.reservation_view self.slots self (memories pool.now overflow.now)) }
    {
        let v = self.reservation_view(pool, overflow);
        view_number(v)
    }

    // Sets byte `index` of the reservation; past its end, none. Refused as the view is: with 1 and 2.
    pub fn write_reservation(
        self,
        pool: &mut [u8],
        overflow: &mut [u8],
        index: u64,
        byte: u8,
    ) -> Result<(), Refusal>
        ensures value { result ≡ values.told (spec.reservation_view self.slots self (memories pool.old overflow.old)) }
        ensures memories_after { memories pool.new overflow.new ≡ spec.written (memories pool.old overflow.old) (values.view_place (spec.reservation_view self.slots self (memories pool.old overflow.old))) index byte }
    {
        let v = self.reservation_view(pool, overflow);
        write(pool, overflow, view_place(v), index, byte);
        told(v)
    }

    // The slice of a handle, a part of the pool memory; the overflow is only measured. Refused with 1, 2, and with 7 if the handle
    // names no live slice (`slice_number`).
    pub fn slice<'a>(self, pool: &'a [u8], overflow: &[u8], h: Handle) -> &'a [u8]
        ensures result_value { result.now ≡ spec.bytes_at (memories pool.now overflow.now) (values.view_place (spec.slice_view self.slots self (memories pool.now overflow.now) h)) }
        ensures ref_ptr_value { result.ref_ptr ≡ spec.place_at pool.entry.ref_ptr overflow.entry.ref_ptr (values.view_place (spec.slice_view self.slots self (memories pool.now overflow.now) h)) }
    {
        let v = self.slice_view(pool, overflow, h);
        part(pool, view_place(v))
    }

    // The same, to be written.
    pub fn slice_mut<'a>(self, pool: &'a mut [u8], overflow: &[u8], h: Handle) -> &'a mut [u8]
        ensures result_value { result.now ≡ spec.bytes_at (memories pool.old overflow.now) (values.view_place (spec.slice_view self.slots self (memories pool.old overflow.now) h)) }
        ensures ref_ptr_value { result.ref_ptr ≡ spec.place_at pool.entry.ref_ptr overflow.entry.ref_ptr (values.view_place (spec.slice_view self.slots self (memories pool.old overflow.now) h)) }
    {
        let v = self.slice_view(pool, overflow, h);
        part_mut(pool, view_place(v))
    }

    // The number of the refusal of a view of the handle's slice, or 0.
    pub fn slice_number(self, pool: &[u8], overflow: &[u8], h: Handle) -> u8
        ensures { result ≡ values.view_refusal (spec.slice_view self.slots self (memories pool.now overflow.now) h) }
    {
        let v = self.slice_view(pool, overflow, h);
        view_number(v)
    }

    // Sets byte `index` of the handle's slice; past its end, none. Refused as the view is: with 1, 2, and
    // with 7 if the handle names no live slice.
    pub fn write_slice(
        self,
        pool: &mut [u8],
        overflow: &[u8],
        h: Handle,
        index: u64,
        byte: u8,
    ) -> Result<(), Refusal>
        ensures value { result ≡ values.told (spec.slice_view self.slots self (memories pool.old overflow.now) h) }
        ensures memories_after { memories pool.new overflow.now ≡ spec.written (memories pool.old overflow.now) (values.view_place (spec.slice_view self.slots self (memories pool.old overflow.now) h)) index byte }
    {
        let v = self.slice_view(pool, overflow, h);
        set_byte(pool, view_place(v), index, byte);
        told(v)
    }
}
