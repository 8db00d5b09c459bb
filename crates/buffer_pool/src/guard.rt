// What turns every call away, of a record's numbers with its entries lent.
ghost use Rattle.std.specs.Prelude.{◌≡◌};
ghost use Rattle.buffer_pool.specs.Record.{most_slots};
ghost use Rattle.buffer_pool.specs.Moves.{memories};
ghost use Rattle.buffer_pool.specs.Numbers.{Whole, with_entries};
ghost use Rattle.buffer_pool.specs.SlotPass.{front_sound};
ghost use Rattle.buffer_pool.specs.Calls as spec;

use crate::buffer_pool::{BufferPool, Entries};
use crate::numbers::{Numbers, Tested};
use crate::refusals::Refusal;
use crate::sound::slots_sound;

// How many entries there are. The type says it of entries by value; of entries that are lent, a proof learns it by this call, which
// leaves no code.
pub(crate) fn whole(entries: Entries) -> usize
    ensures { (result ≡ most_slots) × (Whole entries) }
{
    BufferPool::MOST_SLOTS
}

// Refuses an unsound record, and a memory of another length than the record's. `sound` is what the first two parts of the soundness
// test give, which each call makes itself; the third is made here. As one function the test made back only take 18.6 ns a call, not 13.8
// (docs/DECISIONS.md).
pub(crate) fn guard(
    n: Numbers,
    sound: bool,
    entries: &Entries,
    pool: &[u8],
    overflow: &[u8],
) -> Result<(), Refusal>
    requires { sound ≡ front_sound n entries.now.starts entries.now.lengths }
    ensures { (result ≡ spec.guard n.slots (with_entries n entries.now) (memories pool.now overflow.now)) × (Whole entries.now) }
{
    whole(*entries);
    if !sound {
        return Err(Refusal::Unsound);
    }
    if !slots_sound(Tested { n }, entries) {
        return Err(Refusal::Unsound);
    }
    if pool.len() as u64 != n.capacity {
        return Err(Refusal::WrongLength);
    }
    if overflow.len() as u64 != n.overflow {
        return Err(Refusal::WrongLength);
    }
    Ok(())
}
