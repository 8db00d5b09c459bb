// The lines printed (oracle/README.md has their form).
use crate::event::ListEvent;
use crate::pool::{LentPool, Told};
use buffer_pool::buffer_pool::{BufferPool, PoolMode};
use std::fmt;
use std::fmt::Display;

// No memory is longer where every byte shown is printed.
const SHOWN_LIMIT: usize = 64;

// The hexadecimal digits.
const DIGITS: [u8; 16] = *b"0123456789abcdef";

// Bytes shown under a name, a byte itself: a space, the name, `=`, and two hexadecimal digits each.
#[derive(Clone, Copy)]
struct Shown<'a> {
    name: u8,
    bytes: &'a [u8],
}

// At most as many bytes as a shown memory has. The text is put together before it is written: with a write for each byte a list of small
// memories took three times as long, and with one for each part a third longer (docs/BENCHMARKS.md, issue 43).
impl fmt::Display for Shown<'_> {
    fn fmt<W: fmt::Write>(&self, f: &mut fmt::Formatter<W>) -> fmt::Result {
        let mut text = [b' '; 3 + 2 * SHOWN_LIMIT];
        text[1] = self.name;
        text[2] = b'=';
        for (to, byte) in text[3..].chunks_exact_mut(2).zip(self.bytes) {
            to[0] = DIGITS[(byte / 16) as usize];
            to[1] = DIGITS[(byte % 16) as usize];
        }
        let length = 3 + 2 * self.bytes.len().min(SHOWN_LIMIT);
        f.write_str(str::from_utf8(&text[..length]).unwrap_or(""))
    }
}

// The line of an event: its number in its list, what it was, and the pool after it.
#[derive(Clone, Copy)]
pub(crate) struct Line<'a, 'b> {
    pub(crate) number: u32,
    pub(crate) event: ListEvent,
    pub(crate) told: Told,
    pub(crate) after: &'a LentPool<'b>,
}

// The letter of a mode.
fn letter(mode: PoolMode) -> char {
    match mode {
        PoolMode::Back => 'B',
        PoolMode::Front(_) => 'F',
        PoolMode::Alloc => 'A',
    }
}

impl Line<'_, '_> {
    // The bytes of the frame, of the reservation and of every live slice.
    fn fmt_views<W: fmt::Write>(&self, f: &mut fmt::Formatter<W>) -> fmt::Result {
        let LentPool {
            record,
            pool,
            overflow,
            ..
        } = self.after;
        let record = *record;
        let frame = Shown {
            name: b'f',
            bytes: record.frame(pool, overflow),
        };
        let reservation = Shown {
            name: b'r',
            bytes: record.reservation(pool, overflow),
        };
        frame.fmt(f)?;
        reservation.fmt(f)?;
        for slot in 1..=BufferPool::POOL_CAPACITY as u8 {
            if let Some(handle) = self.after.live_slice(slot) {
                let slice = Shown {
                    name: b'0' + slot,
                    bytes: record.slice(pool, overflow, handle),
                };
                slice.fmt(f)?;
            }
        }
        Ok(())
    }

    // The frame that a take copied, where it copied one.
    fn fmt_copied<W: fmt::Write>(&self, f: &mut fmt::Formatter<W>) -> fmt::Result {
        let copied = self.told.copied as usize;
        let pool = self.after;
        let destination = &*pool.destination;
        match destination.get(..copied) {
            Some(bytes) if 0 < copied && copied <= SHOWN_LIMIT => {
                Shown { name: b'c', bytes }.fmt(f)
            }
            _ => Ok(()),
        }
    }
}

impl fmt::Display for Line<'_, '_> {
    fn fmt<W: fmt::Write>(&self, f: &mut fmt::Formatter<W>) -> fmt::Result {
        let event = self.event.letter();
        let mode = letter(self.after.record.mode);
        let live = self.after.record.live;
        let Told {
            refusal,
            start,
            length,
            changes,
            ..
        } = self.told;
        write!(
            f,
            "{} {event} {refusal} {mode} {live:02x} {start} {length} {changes}",
            self.number
        )?;
        if self.after.pool.len() <= SHOWN_LIMIT && self.after.overflow.len() <= SHOWN_LIMIT {
            self.fmt_views(f)?;
            self.fmt_copied(f)?;
        }
        Ok(())
    }
}
