// The overflow percentage of line T, decided on whole numbers.
ghost use Rattle.std.specs.Prelude.{◌≡◌, ◌≤◌, ◌<◌, ◌^◌};
ghost use Rattle.replay.specs.Percentage as spec;
ghost use Rattle.replay.specs.Run.{Within};

use crate::event::Tally;

// Of `q` and `q + 1` the even one.
fn even_neighbour(q: u64) -> u64
    requires { q < 2 ^ 63 }
    ensures { result ≡ spec.even_neighbour q }
{
    if q % 2 == 0 {
        return q;
    }
    q + 1
}

// `n / d` rounded to the nearest whole number; an exact half goes to the even neighbour.
fn nearest(n: u64, d: u64) -> u64
    requires { (n < 2 ^ 63) × (0 < d) }
    ensures { result ≡ spec.nearest n d }
{
    let q = n / d;
    let twice = 2 * (n % d);
    if twice < d {
        return q;
    }
    if d < twice {
        return q + 1;
    }
    even_neighbour(q)
}

// So many takes of all, in percent.
fn percent(part: u64, all: u64) -> u64
    requires { part ≤ 2 ^ 32 }
    ensures { result ≡ spec.percent part all }
{
    if all == 0 {
        return 0;
    }
    nearest(part * 100, all)
}

// Of the takes that were not empty, those from the overflow, in percent.
pub(crate) fn overflow_percent(t: Tally) -> u64
    requires { Within (2 ^ 32) t }
    ensures { result ≡ spec.percent t.spilled t.takes }
{
    percent(t.spilled, t.takes)
}
