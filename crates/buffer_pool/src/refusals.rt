// Why a call refuses, and the number of each refusal. docs/SPECIFICATION.md has their table and their order; specs/Causes.antt defines
// each cause.
ghost use Rattle.std.specs.Prelude.{◌≡◌};
ghost use Rattle.buffer_pool.specs.Values.{refusal_number};

#[derive(Clone, Copy, PartialEq, Eq)]
pub enum Refusal {
    // the record fails the soundness test
    Unsound,

    // a lent memory's length is not the record's
    WrongLength,

    // new: a memory is longer than the byte limit
    MemoryTooLong,

    // reserve: the overflow would be used and is too short for frame and reservation
    OverflowTooShort,

    // commit: the length exceeds the reservation
    CommitTooLong,

    // take: a frame of the overflow is longer than the destination
    DestinationTooShort,

    // release, and a view of or a write to a slice: the handle names no live slice
    NotLive,

    // take: a frame of the pool is not empty, and all serials are given to the caller
    NoSerials,

    // take: the caller is above 3
    UnknownCaller,

    // new: the slot count is neither 8 nor 16
    WrongSlotCount,
}

impl Refusal {
    // Its number (SPECIFICATION 3.3), which C and the listings have.
    pub fn number(self) -> u8
        ensures { result ≡ refusal_number self }
    {
        match self {
            Refusal::Unsound => 1,
            Refusal::WrongLength => 2,
            Refusal::MemoryTooLong => 3,
            Refusal::OverflowTooShort => 4,
            Refusal::CommitTooLong => 5,
            Refusal::DestinationTooShort => 6,
            Refusal::NotLive => 7,
            Refusal::NoSerials => 8,
            Refusal::UnknownCaller => 12,
            Refusal::WrongSlotCount => 16,
        }
    }
}
