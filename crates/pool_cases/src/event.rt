// What a file of lists holds (oracle/README.md): heads of lists, and events.

use std::fmt;

// The `N` bytes of the file from `at` on; those past its end are 0.
pub(crate) fn bytes_at<const N: usize>(file: &[u8], at: usize) -> [u8; N] {
    let mut bytes = [0; N];
    for (to, from) in bytes.iter_mut().zip(file.iter().skip(at)) {
        *to = *from;
    }
    bytes
}

// The head of a list: the sizes of its memories, and how many events follow.
#[derive(Clone, Copy)]
pub(crate) struct Head {
    pub(crate) capacity: u32,
    pub(crate) overflow: u32,
    pub(crate) events: u32,
}

impl Head {
    // How many bytes it has in a file.
    pub(crate) const SIZE: usize = 12;
}

impl From<[u8; Head::SIZE]> for Head {
    fn from(bytes: [u8; Head::SIZE]) -> Self {
        let [c0, c1, c2, c3, o0, o1, o2, o3, e0, e1, e2, e3] = bytes;
        Head {
            capacity: u32::from_le_bytes([c0, c1, c2, c3]),
            overflow: u32::from_le_bytes([o0, o1, o2, o3]),
            events: u32::from_le_bytes([e0, e1, e2, e3]),
        }
    }
}

// The line that a list begins with.
impl fmt::Display for Head {
    fn fmt<W: fmt::Write>(&self, f: &mut fmt::Formatter<W>) -> fmt::Result {
        write!(f, "pool {} overflow {}", self.capacity, self.overflow)
    }
}

// What names a slice: its caller and its serial.
#[derive(Clone, Copy)]
pub(crate) struct SliceName {
    pub(crate) caller: u8,
    pub(crate) serial: u32,
}

// A byte to be written at an index of a view.
#[derive(Clone, Copy)]
pub(crate) struct ByteWrite {
    pub(crate) index: u64,
    pub(crate) byte: u8,
}

// An event of a list: a call with what it is given, or a write through a view.
#[derive(Clone, Copy)]
pub(crate) enum ListEvent {
    Reserve(u64),
    Commit(u64),
    Take { caller: u8, lent: u64 },
    Truncate(u64),
    Release(SliceName),
    WriteReservation(ByteWrite),
    WriteFrame(ByteWrite),
    WriteSlice(SliceName, ByteWrite),
}

impl ListEvent {
    // How many bytes it has in a file.
    pub(crate) const SIZE: usize = 16;

    // The letter that its line has: that of SPECIFICATION 9.4 for a call, `w` for a write.
    pub(crate) fn letter(self) -> char {
        match self {
            ListEvent::Reserve(_) => 'r',
            ListEvent::Commit(_) => 'c',
            ListEvent::Take { .. } => 't',
            ListEvent::Truncate(_) => 'k',
            ListEvent::Release(_) => 'd',
            ListEvent::WriteReservation(_) | ListEvent::WriteFrame(_) | ListEvent::WriteSlice(..) =>
                'w',
        }
    }
}

// Kind, byte, caller, a byte that is not read, serial and number. A kind that is not one of 1 to 7 writes through a slice.
impl From<[u8; ListEvent::SIZE]> for ListEvent {
    fn from(bytes: [u8; ListEvent::SIZE]) -> Self {
        let [
            kind,
            byte,
            caller,
            _,
            s0,
            s1,
            s2,
            s3,
            n0,
            n1,
            n2,
            n3,
            n4,
            n5,
            n6,
            n7,
        ] = bytes;
        let serial = u32::from_le_bytes([s0, s1, s2, s3]);
        let number = u64::from_le_bytes([n0, n1, n2, n3, n4, n5, n6, n7]);
        let name = SliceName { caller, serial };
        let write = ByteWrite {
            index: number,
            byte,
        };
        match kind {
            1 => ListEvent::Reserve(number),
            2 => ListEvent::Commit(number),
            3 => ListEvent::Take {
                caller,
                lent: number,
            },
            4 => ListEvent::Truncate(number),
            5 => ListEvent::Release(name),
            6 => ListEvent::WriteReservation(write),
            7 => ListEvent::WriteFrame(write),
            _ => ListEvent::WriteSlice(name, write),
        }
    }
}
