// What the exported calls give: structs of numbers without padding, so that every byte is one of a number. A refused call gives its
// refusal's number, and 0 for every other number.
ghost use Rattle.std.specs.Prelude.{◌≡◌, Ok, Err};
ghost use Rattle.buffer_pool.specs.declared.buffer_pool.Answer.TheVariants.{Reserved, Taken, Copied};
ghost use Rattle.buffer_pool_c.specs.Results as spec;

use buffer_pool::buffer_pool::Memory;
use buffer_pool::lent::Resizing;
use buffer_pool::refusals::Refusal;
use buffer_pool::{buffer_pool as pool, slice};

// `buffer_pool_place`: a range of one memory, 0 the pool memory and 1 the overflow.
#[repr(C)]
#[derive(Clone, Copy)]
pub struct Place {
    pub start: u64,
    pub length: u64,
    pub memory: u64,
}

// `buffer_pool_handle`: a slice that lives in the pool.
#[repr(C)]
#[derive(Clone, Copy)]
pub struct Handle {
    pub start: u32,
    pub length: u32,
    pub serial: u32,
    pub slot: u16,
    pub caller: u16,
}

// `buffer_pool_reserved`: the reservation, and how often the mode changed.
#[repr(C)]
#[derive(Clone, Copy)]
pub struct ReserveResult {
    pub place: Place,
    pub changes: u64,
    pub refusal: u64,
}

// `buffer_pool_placed`: a frame, or what a view shows.
#[repr(C)]
#[derive(Clone, Copy)]
pub struct PlaceResult {
    pub place: Place,
    pub refusal: u64,
}

// `buffer_pool_taken`: a slice of the pool, or with slot 0 the count of bytes that went to the destination.
#[repr(C)]
#[derive(Clone, Copy)]
pub struct TakeResult {
    pub handle: Handle,
    pub copied: u64,
    pub refusal: u64,
}

// The number of a memory, for C. No `From`: neither type is of this crate.
fn memory_number(memory: Memory) -> u64
    ensures { result ≡ spec.memory_number memory }
{
    match memory {
        Memory::Pool => 0,
        Memory::Overflow => 1,
    }
}

// A place of the pool's, its memory as a number.
impl From<pool::Place> for Place {
    fn from(p: pool::Place) -> Self
        ensures { result ≡ spec.place_of p }
    {
        Place {
            start: p.start,
            length: p.length,
            memory: memory_number(p.memory),
        }
    }
}

// The pool's own handle, for C.
impl From<slice::Handle> for Handle {
    fn from(h: slice::Handle) -> Self
        ensures { result ≡ spec.handle_of h }
    {
        Handle {
            start: h.start,
            length: h.length,
            serial: h.serial,
            slot: h.slot as u16,
            caller: h.caller as u16,
        }
    }
}

// A number in a byte, and `other` for one that has none.
fn byte_or(other: u8, number: u16) -> u8
    ensures { result ≡ spec.byte_or other number }
{
    if number < 256 { number as u8 } else { other }
}

// C's handle as the pool's own, with its slot and its caller in a byte each. A slot that has no byte becomes 0, which is no slot either,
// and a caller 255, which is no caller either.
impl From<Handle> for slice::Handle {
    fn from(h: Handle) -> Self
        ensures { result ≡ spec.named (spec.in_bytes h) }
    {
        slice::Handle {
            slot: byte_or(0, h.slot),
            start: h.start,
            length: h.length,
            serial: h.serial,
            caller: byte_or(255, h.caller),
        }
    }
}

// No place: the empty one at the pool memory's start.
const NO_PLACE: Place = Place {
    start: 0,
    length: 0,
    memory: 0,
};

// No handle: that of no slot.
const NO_HANDLE: Handle = Handle {
    start: 0,
    length: 0,
    serial: 0,
    slot: 0,
    caller: 0,
};

// A commit's or a truncate's frame.
pub(crate) fn resized(resizing: Result<Resizing, Refusal>) -> PlaceResult
    ensures { result ≡ spec.resize_result resizing }
{
    match resizing {
        Ok(r) => view_result(Ok(r.place)),
        Err(why) => view_result(Err(why)),
    }
}

// A reserve's reservation.
pub(crate) fn reserved(place: pool::Place, changes: u32) -> ReserveResult
    ensures { result ≡ spec.reserve_result (Ok (Reserved place changes)) }
{
    ReserveResult {
        place: Place::from(place),
        changes: changes as u64,
        refusal: 0,
    }
}

// A refused reserve.
pub(crate) fn reserve_refused(why: Refusal) -> ReserveResult
    ensures { result ≡ spec.reserve_result (Err why) }
{
    ReserveResult {
        place: NO_PLACE,
        changes: 0,
        refusal: why.number() as u64,
    }
}

// What a view gives, and with the frame as place a commit or a truncate.
pub(crate) fn view_result(view: Result<pool::Place, Refusal>) -> PlaceResult
    ensures { result ≡ spec.view_result view }
{
    match view {
        Ok(place) => PlaceResult {
            place: Place::from(place),
            refusal: 0,
        },
        Err(why) => PlaceResult {
            place: NO_PLACE,
            refusal: why.number() as u64,
        },
    }
}

// A take that gave a slice of the pool.
pub(crate) fn taken(handle: slice::Handle) -> TakeResult
    ensures { result ≡ spec.take_result (Ok (Taken handle)) }
{
    TakeResult {
        handle: Handle::from(handle),
        copied: 0,
        refusal: 0,
    }
}

// A take that copied so many bytes.
pub(crate) fn copied(length: u64) -> TakeResult
    ensures { result ≡ spec.take_result (Ok (Copied length)) }
{
    TakeResult {
        handle: NO_HANDLE,
        copied: length,
        refusal: 0,
    }
}

// A refused take.
pub(crate) fn take_refused(why: Refusal) -> TakeResult
    ensures { result ≡ spec.take_result (Err why) }
{
    TakeResult {
        handle: NO_HANDLE,
        copied: 0,
        refusal: why.number() as u64,
    }
}
