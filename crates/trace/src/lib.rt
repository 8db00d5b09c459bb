// Reading a trace file (SPECIFICATION 9). Every function here is proved to meet its contract. No public function has a `requires`:
// a file that is not a trace is refused by `read`, and the others answer for any file.
#![tactic(auto)]

ghost use Rattle.std.specs.Prelude.{◌≡◌, ◌+◌, ◌<◌, ◌^◌, get_or};
ghost use Rattle.trace.specs.Trace.{Decodes, number_at, sized, in_order, ended, headed, filler_zero, right, good_at, first_bad, reading, number_of, refusal_of, event_place, event_at};
ghost use Rattle.trace.specs.Content.{content, no_event, bytes_place, moved_on};

// The largest pool capacity and overflow length.
pub const SIZE_LIMIT: u32 = 16384;

// The most bytes of a file.
pub const FILE_LIMIT: usize = 65536;

// The bytes of a header, and of an event.
const HEADER_LENGTH: usize = 24;

const EVENT_LENGTH: usize = 8;

// The greatest caller of a take or a release.
pub const MOST_CALLER: u8 = 3;

// The kinds of an event (SPECIFICATION 9.4).
#[derive(Clone, Copy, Debug, PartialEq, Eq)]
pub enum Kind {
    Reserve,
    Commit,
    Take,
    Truncate,
    Release,
}

// A byte that is no kind.
#[derive(Clone, Copy, Debug, PartialEq, Eq)]
pub struct NoKind(pub u8);

impl TryFrom<u8> for Kind {
    type Error = NoKind;

    ghost try_from_gives = { Decodes };

    fn try_from(byte: u8) -> Result<Kind, NoKind> {
        match byte {
            1 => Ok(Kind::Reserve),
            2 => Ok(Kind::Commit),
            3 => Ok(Kind::Take),
            4 => Ok(Kind::Truncate),
            5 => Ok(Kind::Release),
            _ => Err(NoKind(byte)),
        }
    }
}

// Why a file is refused: its header is wrong, or this is the first bad event, counted from 1.
#[derive(Clone, Copy, Debug, PartialEq, Eq)]
pub enum Refusal {
    WrongHeader,
    BadEvent(u32),
}

impl Refusal {
    // Its number (SPECIFICATION 3.3).
    pub fn number(self) -> u8
        ensures { result ≡ number_of self }
    {
        match self {
            Refusal::WrongHeader => 9,
            Refusal::BadEvent(_) => 10,
        }
    }
}

// The numbers of an accepted header: the two sizes, the count of events and the count of bytes.
#[derive(Clone, Copy, Debug, PartialEq, Eq)]
pub struct Header {
    pub capacity: u32,
    pub overflow: u32,
    pub events: u32,
    pub bytes: u32,
}

// An event as it stands in a file, good or not, so that its kind is a byte: that byte, its caller (of a take or a release; 0 in a
// good event of another kind) and its number.
#[derive(Clone, Copy, Debug, PartialEq, Eq)]
pub struct Event {
    pub kind: u8,
    pub caller: u8,
    pub number: u32,
}

// ---- Numbers and places

// The byte of the file at a place, and 0 past its end.
fn byte_at(file: &[u8], at: usize) -> u8
    ensures { result ≡ get_or file.now at 0 }
{
    file.get(at).copied().unwrap_or(0)
}

// The number of the file whose four bytes, lowest first, stand from a place on.
fn number(file: &[u8], at: usize) -> u32
    requires { at + 3 < 2 ^ 64 }
    ensures { result ≡ number_at file.now at }
{
    u32::from_le_bytes([
        byte_at(file, at),
        byte_at(file, at + 1),
        byte_at(file, at + 2),
        byte_at(file, at + 3),
    ])
}

// Where the event of an index begins.
fn event_place(index: u32) -> usize
    ensures { (result ≡ event_place index) × (result < 2 ^ 36) }
{
    HEADER_LENGTH + EVENT_LENGTH * index as usize
}

// ---- The tests of a header and of events

// Are the two sizes within their limit?
fn is_sized(file: &[u8]) -> bool
    ensures { result ≡ sized file.now }
{
    number(file, 0) <= SIZE_LIMIT && number(file, 4) <= SIZE_LIMIT
}

// Do the events follow the header, and the bytes the events?
fn is_in_order(file: &[u8]) -> bool
    ensures { result ≡ in_order file.now }
{
    number(file, 20) as usize == event_place(number(file, 8))
        && number(file, 12) as usize == HEADER_LENGTH
}

// Is the file within its limit, and does it end after the bytes? The sum is of 64-bit numbers, so that it cannot wrap.
fn is_ended(file: &[u8]) -> bool
    ensures { result ≡ ended file.now }
{
    let end = number(file, 20) as usize + number(file, 16) as usize;
    file.len() <= FILE_LIMIT && file.len() == end
}

// Is the header right?
fn is_headed(file: &[u8]) -> bool
    ensures { result ≡ headed file.now }
{
    file.len() >= HEADER_LENGTH && is_sized(file) && is_in_order(file) && is_ended(file)
}

// The event of an index, counted from 0, with the bytes past the end of the file counted as 0.
fn event_there(file: &[u8], index: u32) -> Event
    ensures { result ≡ event_at file.now index }
{
    let at = event_place(index);
    Event {
        kind: byte_at(file, at),
        caller: byte_at(file, at + 1),
        number: number(file, at + 4),
    }
}

// Are the two filler bytes of an event 0?
fn filler_is_zero(file: &[u8], index: u32) -> bool
    ensures { result ≡ filler_zero file.now index }
{
    let at = event_place(index);
    byte_at(file, at + 2) == 0 && byte_at(file, at + 3) == 0
}

// Is the kind one of the five, the caller one of the four where the kind has one and else 0, and a take's number 0?
fn is_right(event: Event) -> bool
    ensures { result ≡ right event }
{
    match Kind::try_from(event.kind) {
        Ok(Kind::Take) => event.caller <= MOST_CALLER && event.number == 0,
        Ok(Kind::Release) => event.caller <= MOST_CALLER,
        Ok(Kind::Reserve | Kind::Commit | Kind::Truncate) => event.caller == 0,
        Err(_) => false,
    }
}

// Is the event of an index good?
fn is_good(file: &[u8], index: u32) -> bool
    ensures { result ≡ good_at file.now index }
{
    filler_is_zero(file, index) && is_right(event_there(file, index))
}

// The first bad one of the first `events` events, counted from 1.
fn first_bad(file: &[u8], events: u32) -> Option<u32>
    ensures { result ≡ first_bad file.now 0 events }
{
    for i in 0..events {
        if !is_good(file, i) {
            return Some(i + 1);
        }
    }
    None
}

// ---- What the replay calls

// The numbers of a trace's header, or why the file is none. The header is tested first.
pub fn read(file: &[u8]) -> Result<Header, Refusal>
    ensures { result ≡ reading file.now }
{
    if !is_headed(file) {
        return Err(Refusal::WrongHeader);
    }
    let events = number(file, 8);
    if let Some(event) = first_bad(file, events) {
        return Err(Refusal::BadEvent(event));
    }
    Ok(Header {
        capacity: number(file, 0),
        overflow: number(file, 4),
        events,
        bytes: number(file, 16),
    })
}

// The number of an answer (SPECIFICATION 3.3): 9 or 10, and 0 for an accepted file.
pub fn answer_number(answer: Result<Header, Refusal>) -> u8
    ensures { result ≡ refusal_of answer }
{
    match answer {
        Ok(_) => 0,
        Err(refusal) => refusal.number(),
    }
}

// The event of an index, counted from 0, and kind 0 where the file has no event of that index. Not an Option: it was public, and could not fail.
pub fn event_at(file: &[u8], index: u32) -> Event
    ensures { result ≡ get_or (content file.now).events index no_event }
{
    if number(file, 8) <= index {
        return Event {
            kind: 0,
            caller: 0,
            number: 0,
        };
    }
    event_there(file, index)
}

// The bytes for the frames, as a part of the file; none where the file ends before them.
pub fn bytes(file: &[u8]) -> &[u8]
    ensures result_value { result.now ≡ (content file.now).bytes }
    ensures ref_ptr_value { result.ref_ptr ≡ moved_on file.entry.ref_ptr (bytes_place file.now) }
{
    let at = number(file, 20) as usize;
    if file.len() < at {
        return &file[0..0];
    }
    &file[at..]
}
