// The measure by which tables are kept.
ghost use Rattle.std.specs.Prelude.{◌≡◌};
ghost use Rattle.book.specs.Hall.{most_ways, scale};

use book::limits::Hall;
use links::measure::Measure;

pub fn present() -> Measure
    ensures { (result.limit ≡ most_ways) × (result.scale ≡ scale) }
{
    Measure {
        limit: Hall::WAYS,
        scale: Hall::SCALE,
    }
}
