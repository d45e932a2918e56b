// The tests over all stops, one after another. A loop that tests every stop has no branch, so that the compiler tests several at a
// time: `all`, which stops early, takes two to four times the steps.
ghost use Rattle.std.specs.Prelude.{◌≡◌, ◌<◌, ◌≤◌, length};
ghost use Rattle.routes.specs.Route.{mark, all_to};
ghost use Rattle.row_check.specs.Tests.{at_source, reached, few_in_all, little, paid, agreed, Pays};

use book::limits::Hall;

// The source has time 0, one way and no share. The tests below would find its way and share too; found here, audits are faster.
pub fn at_source(s: usize, time: &[u32], ways: &[u32], share: &[u64]) -> bool
    requires { (s < length time.now) × (s < length ways.now) × (s < length share.now) }
    ensures { result ≡ at_source s time.now ways.now share.now }
{
    time[s] == 0 && ways[s] == 1 && share[s] == 0
}

// The stops without ways are those of the mark.
pub fn reached(time: &[u32], ways: &[u32]) -> bool
    requires { length ways.now ≡ length time.now }
    ensures { result ≡ all_to (length time.now) (reached mark time.now ways.now) }
{
    let mut ok = true;
    for (t, w) in time.iter().zip(ways) {
        ok &= (*t == Hall::MARK) == (*w == 0);
    }
    ok
}

// All stops have at most 63 × 22 ways together; a right row has fewer. A sum of ways into a stop is a part of these.
pub fn few_in_all(ways: &[u32]) -> bool
    requires { length ways.now ≤ 64 }
    ensures { result ≡ few_in_all (length ways.now) ways.now }
{
    ways.iter().map(|w| u64::from(*w)).sum::<u64>() <= 63 * 22
}

// Every share is below 2^40, as all of them joined are. A right one is: at most 64 times the scale, which is at most 2^32. And
// below it no sum of the check outgrows a word: a stop hands back at most 2^41, and 2^47 flows back to one.
pub fn light(share: &[u64]) -> bool
    ensures { result ≡ all_to (length share.now) (little share.now) }
{
    let mut joined = 0;
    for x in share {
        joined |= *x;
    }
    joined < 1 << 40
}

// Every share is what flows back times the ways.
pub fn balanced(ways: &[u32], share: &[u64], flow: &[u64]) -> bool
    requires { Pays (length share.now) ways.now share.now flow.now }
    ensures { result ≡ all_to (length share.now) (paid ways.now share.now flow.now) }
{
    let mut ok = true;
    for ((w, x), back) in ways.iter().zip(share).zip(flow) {
        ok &= *x == u64::from(*w) * *back;
    }
    ok
}

// Every stop has the ways that were summed, up to `top`.
pub fn counted(top: u32, ways: &[u32], sum: &[u16]) -> bool
    requires { length sum.now ≡ length ways.now }
    ensures { result ≡ all_to (length ways.now) (agreed top ways.now sum.now) }
{
    let mut ok = true;
    for (w, sum) in ways.iter().zip(sum) {
        ok &= *w == top.min(u32::from(*sum));
    }
    ok
}
