// The places that are the same in all pairs of a block.
ghost use Rattle.std.specs.Prelude.{◌≤◌};
ghost use Rattle.alike.specs.Survivors.{most_places};
ghost use Rattle.alike.specs.Places.{OuterPlaces};

use atomset::difference;

// The places from 5 on that are below `width`.
pub(crate) fn outer_places(width: usize) -> u64
    requires { width ≤ most_places }
    ensures { OuterPlaces width result }
{
    difference((1u64 << width) - 1, 31)
}
