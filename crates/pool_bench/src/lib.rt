// The pool driven from inside Rattle, for rust/bench: rounds of the four calls on a record that never crosses to C.
#![tactic(auto)]

ghost use Rattle.std.specs.Prelude.{◌≡◌, []};
ghost use Rattle.buffer_pool.specs.Moves.{memories};
ghost use Rattle.buffer_pool.specs.Steps.{given_to};
ghost use Rattle.pool_bench.specs.Rounds as spec;

use buffer_pool::buffer_pool::BufferPool;

// The record goes by value beside its lent memories, as every call of the pool takes it: a struct of all of them would be taken apart
// again for each call.

// A frame of `len` bytes: reserve and commit.
fn gathered(p: BufferPool, pool: &mut [u8], overflow: &mut [u8], len: u64) -> BufferPool
    ensures { spec.state result (memories pool.new overflow.new) [] ≡ spec.gathered len (spec.state p (memories pool.old overflow.old) []) }
{
    let reserved = p.reserve(pool, overflow, len);
    let q = reserved.pool;
    let committed = q.commit(pool, overflow, len);
    committed.pool
}

// The frame taken by caller 0 and released.
fn finished(p: BufferPool, pool: &[u8], overflow: &mut [u8], destination: &mut [u8]) -> BufferPool
    ensures { spec.state result (memories pool.now overflow.new) destination.new ≡ spec.finished (spec.state p (memories pool.now overflow.old) destination.old) }
{
    let took = p.take(pool, overflow, 0, destination);
    let q = took.pool;
    let released = q.release(pool, overflow, took.handle());
    released.pool
}

// One round of the four calls.
fn round(
    p: BufferPool,
    pool: &mut [u8],
    overflow: &mut [u8],
    destination: &mut [u8],
    len: u64,
) -> BufferPool
    ensures { spec.state result (memories pool.new overflow.new) destination.new ≡ spec.finished (spec.gathered len (spec.state p (memories pool.old overflow.old) destination.old)) }
{
    let q = gathered(p, pool, overflow, len);
    finished(q, pool, overflow, destination)
}

// So many rounds on a new pool over these memories; gives how many serials caller 0 was given.
#[unsafe(no_mangle)]
pub extern "C" fn pool_bench_rounds(
    pool: &mut [u8],
    overflow: &mut [u8],
    destination: &mut [u8],
    len: u64,
    rounds: u64,
) -> u32
    ensures value { result ≡ given_to (spec.rounds len rounds (spec.started (memories pool.old overflow.old) destination.old)).held 0 }
    ensures memories_after { memories pool.new overflow.new ≡ (spec.rounds len rounds (spec.started (memories pool.old overflow.old) destination.old)).memory }
{
    let made = BufferPool::new(BufferPool::POOL_CAPACITY, pool, overflow);
    let mut p = made.pool;
    for _ in 0..rounds {
        p = round(p, pool, overflow, destination, len);
    }
    p.given[0]
}
