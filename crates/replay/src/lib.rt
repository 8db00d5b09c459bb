// The run of a trace and its listing (SPECIFICATION 9 and 10). Every function here is proved to meet its contract. `replay` and
// `replay_whole` are what a program calls; neither has a `requires`.
#![tactic(auto)]

mod event;
mod lent;
mod listing;
mod percent;
mod slots;
mod text;
mod walk;

ghost use Rattle.std.specs.Prelude.{◌≡◌, ◌++◌, length, drop};
ghost use Rattle.io.specs.Counts.{IsPrefixLen};
ghost use Rattle.replay.specs.Text.{output, wrote};
ghost use Rattle.replay.specs.Listing as spec;

use crate::listing::put_refused;
use crate::walk::put_trace;

// No listing is longer: line one, the lines of 8,189 events, and line T.
pub const LISTING_LIMIT: usize = 26 + 8_189 * 33 + 22;

// An output that is too short for a listing, and how long it must be.
#[derive(Clone, Copy, Debug, PartialEq, Eq)]
pub struct TooShort {
    pub needed: usize,
}

// The listing of a file at the output's start: what of it lies past the output's end is not written, and still counts.
fn put_listing(out: &mut [u8], file: &[u8]) -> usize
    ensures { output result out.new ≡ wrote (output 0 out.old) (spec.listing file.now) }
{
    match trace::read(file) {
        Ok(header) => put_trace(out, file, header),
        Err(refusal) => put_refused(out, refusal),
    }
}

// Runs the trace in `file` on its own memories, and writes its listing to the start of `out`; the other bytes of `out` stay. An
// `out` that is too short stays whole. A file that is refused with 9 or 10 has a listing too: the line that says so. Answers the
// listing's length.
pub fn replay(file: &[u8], out: &mut [u8]) -> Result<usize, TooShort>
    ensures { spec.replayed result out.new ≡ spec.delivered (spec.listing file.now) out.old }
{
    let n = put_listing(&mut out[..0], file);
    if out.len() < n {
        return Err(TooShort { needed: n });
    }
    put_listing(out, file);
    Ok(n)
}

// Runs the trace in `file` as `replay` does, and writes its listing to the start of `out`, which every listing fits; the other bytes
// of `out` stay. Answers the listing's length.
pub fn replay_whole(file: &[u8], out: &mut [u8; LISTING_LIMIT]) -> usize
    ensures value { result ≡ length (spec.listing file.now) }
    ensures out_after { out.new ≡ spec.listing file.now ++ drop result out.old }
    ensures prefix_len { IsPrefixLen result out.new }
{
    put_listing(out, file)
}
