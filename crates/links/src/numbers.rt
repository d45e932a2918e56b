// Small steps on numbers: a choice without a branch, and what it takes to pass a stop.
ghost use Rattle.std.specs.Prelude.{◌≡◌, ◌<◌, length};
ghost use Rattle.links.specs.Picked.{Picked};
ghost use Rattle.links.specs.Promise.{stay};

// The first of two values where a test holds, else the second.
pub fn select<T: Copy>(yes: bool, a: T, b: T) -> T
    ensures { Picked yes a b result }
{
    if yes { a } else { b }
}

// What it takes to pass the stop u on a route from s: nothing where the route begins.
pub fn stay(s: usize, u: usize, passing: &[u32]) -> u32
    requires { u < length passing.now }
    ensures { result ≡ stay s passing.now u }
{
    select(u == s, 0, passing[u])
}
