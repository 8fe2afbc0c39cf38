// How many packets may arrive between two visits of a reader, and so whether fifteen slots will do. In microframes: a
// and b are the least and the greatest distance from a visit to the next, c and d those from an arrival to the next.
#![tactic(auto)]

ghost use Rattle.std.specs.Prelude.{◌≡◌, ◌+◌, ◌≤◌, ◌<◌};
ghost use Rattle.visits.specs.Limits.{no_distance, no_limits};
ghost use Rattle.visits.specs.Rows.{row_of};
ghost use Rattle.visits.specs.Bounds.{least_of, greatest_of, bounds_of};

// A number of arrivals, and times that reach it: the first arrival after the visit, and the distance from each arrival
// to the next.
#[derive(Clone, Copy, Debug, PartialEq, Eq)]
pub struct Reached {
    pub arrivals: u32,
    pub first: u32,
    pub distance: u32,
}

// The least and the greatest number of arrivals in one span between visits.
#[derive(Clone, Copy, Debug, PartialEq, Eq)]
pub struct Bounds {
    pub least: Reached,
    pub greatest: Reached,
}

// By which row of include/usbhs.h (enum usbhs_row) a call is refused, with its number there: a distance of 0 or above
// 16,383, or a least above its greatest.
#[derive(Clone, Copy, Debug, PartialEq, Eq)]
pub enum Refusal {
    Distances = 23,
}

impl Refusal {
    // The row's number.
    pub fn row(self) -> u8
        ensures { result ≡ row_of self }
    {
        self as u8
    }
}

const LONGEST: u32 = 16383;

fn no_distance(x: u32) -> bool
    ensures { result ≡ no_distance x }
{
    x == 0 || LONGEST < x
}

fn no_limits(least: u32, greatest: u32) -> bool
    ensures { result ≡ no_limits least greatest }
{
    no_distance(least) || no_distance(greatest) || greatest < least
}

// Every arrival as late as it may be, in the shortest span.
fn least(a: u32, d: u32) -> Reached
    requires { 0 < d }
    ensures { result ≡ least_of a d }
{
    Reached {
        arrivals: a / d,
        first: d,
        distance: d,
    }
}

// Every arrival as soon as it may be, in the longest span.
fn greatest(b: u32, c: u32) -> Reached
    requires c_nonzero { 0 < c }
    requires b_bound { b ≤ 16383 }
    requires c_bound { c ≤ 16383 }
    ensures { result ≡ greatest_of b c }
{
    Reached {
        arrivals: (b + (c - 1)) / c,
        first: 1,
        distance: c,
    }
}

// Least and greatest number of arrivals between two visits (request Thirteen), each with times that reach it.
pub fn between_visits(a: u32, b: u32, c: u32, d: u32) -> Result<Bounds, Refusal>
    ensures { result ≡ bounds_of a b c d }
{
    if no_limits(a, b) || no_limits(c, d) {
        return Err(Refusal::Distances);
    }
    Ok(Bounds {
        least: least(a, d),
        greatest: greatest(b, c),
    })
}
