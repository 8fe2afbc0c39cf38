// The arrivals between visits as three numbers of the caller's.
ghost use Rattle.std.specs.Prelude.{◌≡◌};
ghost use Rattle.survey_c.specs.Numbers.{numbers_of};

use visits::Reached;

// How many arrive in a span between visits, with the first arrival after the visit and the distance that reach it.
pub fn reached(r: Reached) -> [u32; 3]
    ensures { result ≡ numbers_of r }
{
    [r.arrivals, r.first, r.distance]
}
