// What each stop hands back to the stops before it.
ghost use Rattle.std.specs.Prelude.{◌≡◌, ◌+◌, ◌^◌, ◌<◌, length};
ghost use Rattle.routes.specs.Route.{all_to};
ghost use Rattle.routes.specs.Stored.{Stored};
ghost use Rattle.row_check.specs.Tests.{at, single};
ghost use Rattle.row_check.specs.Handed.{handed_back, Undivides, Divides, Divided};

use links::measure::Measure;

// What each stop hands back to each stop before it, the source nothing.
pub fn hand_back(s: usize, measure: Measure, ways: &[u32], share: &[u64], psi: &mut [u64])
    requires { (s < length share.now) × Divides (length share.now) measure.scale ways.now share.now psi.old }
    ensures { Divided (length share.now) s measure.limit measure.scale ways.now share.now psi.new }
{
    if all_single(ways) {
        undivided(measure.scale, share, psi);
    } else {
        divided(measure, ways, share, psi);
    }
    psi[s] = 0;
}

// Every stop has one way.
fn all_single(ways: &[u32]) -> bool
    ensures { result ≡ all_to (length ways.now) (single ways.now) }
{
    let mut ok = true;
    for w in ways {
        ok &= *w == 1;
    }
    ok
}

// The scale and each share.
fn undivided(scale: u64, share: &[u64], psi: &mut [u64])
    requires { Undivides (length share.now) scale share.now psi.old }
    ensures { Stored (λ t. scale + at share.now t) (length share.now) psi.old psi.new }
{
    for (t, x) in share.iter().enumerate() {
        psi[t] = scale + *x;
    }
}

// The scale and each share, divided by the ways.
fn divided(measure: Measure, ways: &[u32], share: &[u64], psi: &mut [u64])
    requires { Divides (length share.now) measure.scale ways.now share.now psi.old }
    ensures { Stored (λ t. handed_back measure.limit measure.scale (at ways.now t) (at share.now t)) (length share.now) psi.old psi.new }
{
    for (t, x) in share.iter().enumerate() {
        psi[t] = handed_back(measure, ways[t], *x);
    }
}

// What a stop with w ways and the share x hands back to each stop before it.
fn handed_back(measure: Measure, w: u32, x: u64) -> u64
    requires { measure.scale + x < 2 ^ 64 }
    ensures { result ≡ handed_back measure.limit measure.scale w x }
{
    match w {
        1 => measure.scale + x,
        0 => 0,
        _ if measure.limit < w => 0,
        _ => (measure.scale + x) / u64::from(w),
    }
}
