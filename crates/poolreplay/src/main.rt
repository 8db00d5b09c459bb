// poolreplay: reads a trace from standard input and prints its listing (SPECIFICATION 9 and 10). All of that is the crate replay's.
// Where standard input cannot be read, or standard output not written, it says so on standard error (10.8).
#![tactic(auto)]

ghost use Rattle.std.specs.Prelude.{IfOk};
ghost use Rattle.io.specs.Counts.{IsPrefixLen};

use std::io::{Read, Write};
use std::{fmt, io};

// What can fail.
#[derive(Clone, Copy, Debug, PartialEq, Eq)]
enum Fault {
    Input,
    Output,
}

impl fmt::Display for Fault {
    fn fmt<W: fmt::Write>(&self, f: &mut fmt::Formatter<W>) -> fmt::Result {
        f.write_str(match self {
            Fault::Input => "standard input cannot be read",
            Fault::Output => "standard output cannot be written",
        })
    }
}

// Reads into `file`, until the input ends or `file` is full; gives how many bytes it read. Fails with the first read that does. The
// loop is its own: of the library's, `read_to_end` needs heap, and `copy` moves each byte twice.
fn read_input<R: Read>(input: &mut R, file: &mut [u8]) -> io::Result<usize>
    ensures { IfOk result (λ length. IsPrefixLen length file.new) }
{
    let mut length = 0;
    while length < file.len() {
        match input.read(&mut file[length..])? {
            0 => break,
            n => length += n,
        }
    }
    Ok(length)
}

// Prints the listing of the trace that the input holds.
fn run<R: Read, W: Write>(input: &mut R, output: &mut W) -> Result<(), Fault> {
    // one byte more than a trace may have, so that a longer file is seen to be one
    let mut file = [0u8; trace::FILE_LIMIT + 1];
    let Ok(length) = read_input(input, &mut file) else {
        return Err(Fault::Input);
    };
    let mut out = [0u8; replay::LISTING_LIMIT];
    let written = replay::replay_whole(&file[..length], &mut out);
    output.write_all(&out[..written]).map_err(|_| Fault::Output)
}

// Where standard error cannot be written either, nobody is told.
fn main(rt: HostRuntime) {
    if let Err(fault) = run(&mut rt.stdin(), &mut rt.stdout()) {
        let _ = eprintln!(rt; "poolreplay: {fault}");
    }
}
