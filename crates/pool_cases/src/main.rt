// Runs lists of calls and view writes (oracle/README.md has the form of the file) through the public calls and views, and prints
// each answer and, for memories of at most 64 bytes, every byte shown. The stored output is the Rust's.
#![tactic(auto)]

mod event;
mod line;
mod pool;

use crate::event::{Head, ListEvent, bytes_at};
use crate::line::Line;
use crate::pool::LentPool;
use std::fmt::Display;
use std::io;
use std::io::{Cursor, Read, Write};

// The length of each lent memory. A list with a longer one is not run.
const MEMORY_LIMIT: usize = 65_536;

// So many bytes of standard input are read.
const INPUT_LIMIT: usize = 131_072;

// No line is longer: it shows at most 64 bytes of each memory, and as many that were copied.
const LINE_LIMIT: usize = 1024;

// Prints a line, by one write.
fn print<W: Write>(out: &mut W, line: &impl Display) -> io::Result<()> {
    let mut bytes = Cursor::new([0; LINE_LIMIT]);
    writeln!(bytes, "{line}")?;
    let length = bytes.position() as usize;
    out.write_all(bytes.get_ref().get(..length).unwrap_or(&[]))
}

// The event of index `i` of a list whose head ends at `at`. Index 65,536 lies past the end of any file, and for a higher one the
// file's first bytes are read.
fn event_at(file: &[u8], at: usize, i: u32) -> ListEvent {
    if i <= 65_536 {
        let place = at.saturating_add(ListEvent::SIZE * i as usize);
        return ListEvent::from(bytes_at(file, place));
    }
    ListEvent::from(bytes_at(file, 0))
}

// Runs the events of a list, the first at `at`, on a new pool, and prints their lines. A line that cannot be written is passed over: the
// events after it are run, and their lines printed.
fn run_events<W: Write>(out: &mut W, file: &[u8], at: usize, events: u32, mut pool: LentPool<'_>) {
    for i in 0..events {
        let event = event_at(file, at, i);
        let told = pool.run(event);
        let line = Line {
            number: i + 1,
            event,
            told,
            after: &pool,
        };
        let _ = print(out, &line);
    }
}

// Runs the lists of a file, all on the same memories: prints the sizes of each, and the lines of its events where it fits.
fn run<W: Write>(out: &mut W, file: &[u8]) {
    let mut pool = [0; MEMORY_LIMIT];
    let mut overflow = [0; MEMORY_LIMIT];
    let mut destination = [0; MEMORY_LIMIT];
    let mut at = 0;
    // a `while`: each list says where the next begins
    while at < file.len() {
        let head = Head::from(bytes_at(file, at));
        let _ = print(out, &head);
        let first = at + Head::SIZE;
        let capacity = head.capacity as usize;
        let length = head.overflow as usize;
        if let Some(pool) = pool.get_mut(..capacity)
            && let Some(overflow) = overflow.get_mut(..length)
        {
            let lent = LentPool::new(pool, overflow, &mut destination);
            run_events(out, file, first, head.events, lent);
        }
        at = first + ListEvent::SIZE * head.events as usize;
    }
}

// Where reading fails, what was read before is run. Where the lines cannot be written, nobody is told.
fn main(rt: HostRuntime) {
    let mut file = Cursor::new([0; INPUT_LIMIT]);
    let _ = io::copy(&mut rt.stdin().take(INPUT_LIMIT as u64), &mut file);
    let length = file.position() as usize;
    if let Some(lists) = file.get_ref().get(..length) {
        run(&mut rt.stdout(), lists);
    }
}
