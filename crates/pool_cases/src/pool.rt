// The pool on which a list is run, through its public calls and views.
use crate::event::{ByteWrite, ListEvent, SliceName};
use buffer_pool::buffer_pool::{Answer, BufferPool, Called, Place};
use buffer_pool::refusals::Refusal;
use buffer_pool::slice::Handle;

// A handle that names no slice: a release takes one where no slice has the event's name.
const NO_HANDLE: Handle = Handle {
    slot: 0,
    start: 0,
    length: 0,
    serial: 0,
    caller: 0,
};

// What a line tells of an event: its refusal or 0, a start and a length, how often the mode changed, and how many bytes a take copied.
#[derive(Clone, Copy, Default)]
pub(crate) struct Told {
    pub(crate) refusal: u8,
    pub(crate) start: u64,
    pub(crate) length: u64,
    pub(crate) changes: u32,
    pub(crate) copied: u64,
}

impl From<Place> for Told {
    fn from(place: Place) -> Self {
        Told {
            start: place.start,
            length: place.length,
            ..Told::default()
        }
    }
}

impl From<Handle> for Told {
    fn from(slice: Handle) -> Self {
        Told {
            start: u64::from(slice.start),
            length: u64::from(slice.length),
            ..Told::default()
        }
    }
}

impl From<Answer> for Told {
    fn from(answer: Answer) -> Self {
        match answer {
            Answer::Done => Told::default(),
            Answer::Reserved(place, changes) => Told {
                changes,
                ..Told::from(place)
            },
            Answer::Framed(place) => Told::from(place),
            Answer::Taken(slice) => Told::from(slice),
            Answer::Copied(length) => Told {
                length,
                copied: length,
                ..Told::default()
            },
        }
    }
}

impl From<Refusal> for Told {
    fn from(refusal: Refusal) -> Self {
        Told {
            refusal: refusal.number(),
            ..Told::default()
        }
    }
}

// A pool of 8 slots with its memories, and the destination that is lent to its takes.
#[derive(Drop)]
pub(crate) struct LentPool<'a> {
    pub(crate) record: BufferPool,
    pub(crate) pool: &'a mut [u8],
    pub(crate) overflow: &'a mut [u8],
    pub(crate) destination: &'a mut [u8],
}

// Sets a byte of a view, where the view reaches.
fn set(view: &mut [u8], write: ByteWrite) {
    if let Some(byte) = view.get_mut(write.index as usize) {
        *byte = write.byte;
    }
}

// A method names the memories before it lends them: no proof is made yet where two fields behind `self` are lent in one call.
impl<'a> LentPool<'a> {
    // A new pool on these memories.
    pub(crate) fn new(
        pool: &'a mut [u8],
        overflow: &'a mut [u8],
        destination: &'a mut [u8],
    ) -> Self {
        let made = BufferPool::new(BufferPool::POOL_CAPACITY, pool, overflow);
        LentPool {
            record: made.pool,
            pool,
            overflow,
            destination,
        }
    }

    // The handle of a slot as the record has it; none where there is no such slot.
    fn entry(&self, slot: u8) -> Option<Handle> {
        let i = usize::from(slot).checked_sub(1)?;
        Some(Handle {
            slot,
            start: self.record.starts.get(i).copied()?,
            length: self.record.lengths.get(i).copied()?,
            serial: self.record.serials.get(i).copied()?,
            caller: self.record.callers.get(i).copied()?,
        })
    }

    // Does the handle name a live slice?
    fn is_live(&self, slice: Handle) -> bool {
        self.record
            .slice_view(self.pool, self.overflow, slice)
            .is_ok()
    }

    // The handle of the slice in a slot, if one is live there.
    pub(crate) fn live_slice(&self, slot: u8) -> Option<Handle> {
        self.entry(slot).filter(|slice| self.is_live(*slice))
    }

    // The handle of the live slice of this name. A slot's name is compared before it is asked whether it is live.
    fn named(&self, name: SliceName) -> Option<Handle> {
        (1..=BufferPool::POOL_CAPACITY as u8)
            .filter_map(|slot| self.entry(slot))
            .filter(|slice| slice.caller == name.caller && slice.serial == name.serial)
            .find(|slice| self.is_live(*slice))
    }

    // Keeps a call's record, and gives what its line tells.
    fn called(&mut self, call: Called) -> Told {
        self.record = call.pool;
        call.answer.map_or_else(Told::from, Told::from)
    }

    // Take with as many bytes of the destination as are to be lent, or with all where it is shorter.
    fn take(&mut self, caller: u8, lent: u64) -> Told {
        let pool = &mut *self.pool;
        let overflow = &mut *self.overflow;
        let destination = &mut *self.destination;
        let n = destination.len().min(lent as usize);
        let caller = u64::from(caller);
        let call = self
            .record
            .take(pool, overflow, caller, &mut destination[..n]);
        self.called(call)
    }

    // Release: the line tells the slice's place.
    fn release(&mut self, name: SliceName) -> Told {
        let slice = self.named(name);
        let handle = slice.unwrap_or(NO_HANDLE);
        let pool = &mut *self.pool;
        let overflow = &mut *self.overflow;
        let call = self.record.release(pool, overflow, handle);
        let told = self.called(call);
        slice.map_or(told, Told::from)
    }

    // A write through the reservation's view: the line tells its place.
    fn write_reservation(&mut self, write: ByteWrite) -> Told {
        let record = self.record;
        let pool = &mut *self.pool;
        let overflow = &mut *self.overflow;
        let view = record.reservation_view(pool, overflow);
        set(record.reservation_mut(pool, overflow), write);
        view.map_or(Told::default(), Told::from)
    }

    // A write through the frame's view: the line tells its place. It differs from the write before in the two views that it takes: one
    // function for both would be given each of them as a closure.
    fn write_frame(&mut self, write: ByteWrite) -> Told {
        let record = self.record;
        let pool = &mut *self.pool;
        let overflow = &mut *self.overflow;
        let view = record.frame_view(pool, overflow);
        set(record.frame_mut(pool, overflow), write);
        view.map_or(Told::default(), Told::from)
    }

    // A write through a slice's view: the line tells its place. No write where no live slice has this name.
    fn write_slice(&mut self, name: SliceName, write: ByteWrite) -> Told {
        let Some(slice) = self.named(name) else {
            return Told::default();
        };
        let record = self.record;
        let pool = &mut *self.pool;
        let overflow = &mut *self.overflow;
        set(record.slice_mut(pool, overflow, slice), write);
        Told::from(slice)
    }

    // Runs an event.
    pub(crate) fn run(&mut self, event: ListEvent) -> Told {
        let record = self.record;
        let pool = &mut *self.pool;
        let overflow = &mut *self.overflow;
        match event {
            ListEvent::Reserve(length) => {
                let call = record.reserve(pool, overflow, length);
                self.called(call)
            }
            ListEvent::Commit(length) => {
                let call = record.commit(pool, overflow, length);
                self.called(call)
            }
            ListEvent::Take { caller, lent } => self.take(caller, lent),
            ListEvent::Truncate(length) => {
                let call = record.truncate(pool, overflow, length);
                self.called(call)
            }
            ListEvent::Release(name) => self.release(name),
            ListEvent::WriteReservation(write) => self.write_reservation(write),
            ListEvent::WriteFrame(write) => self.write_frame(write),
            ListEvent::WriteSlice(name, write) => self.write_slice(name, write),
        }
    }
}
