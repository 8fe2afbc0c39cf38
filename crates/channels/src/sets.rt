// Sets of channels: what each comes to, and the best one among the first so many.
ghost use Rattle.std.specs.Prelude.{◌≡◌, ◌+◌, ◌*◌, ◌^◌, ◌≤◌, ◌<◌, length};
ghost use Rattle.bits.specs.Bit.{bit_is_set};
ghost use Rattle.channels.specs.Channels.{maximum, charge};
ghost use Rattle.channels.specs.Arrays.{listed, lists_of};
ghost use Rattle.channels.specs.Sets.{total, look, best_of, figure, choice_of};

use crate::{Channel, Choice};

// The byte-times of a microframe that periodic transfers may use (USB 2.0, chapter 5).
const PERIODIC: u32 = 6000;

// What a set's channels total: their maxima and their charges.
#[derive(Clone, Copy)]
struct Totals {
    maximum: u32,
    charge: u32,
}

// What a channel comes to alone.
fn alone(c: &Channel) -> Totals
    ensures maximum { result.maximum ≡ c.now.maximum }
    ensures charge { result.charge ≡ c.now.charge }
    ensures most { (result.maximum ≤ 65535) × (result.charge ≤ 65535) }
{
    Totals {
        maximum: c.maximum as u32,
        charge: c.charge as u32,
    }
}

// A set, and the total of its maxima.
#[derive(Clone, Copy)]
pub struct Found {
    pub set: u32,
    pub total: u32,
}

// The channels that are searched, at most 16, and what is left of the bus time.
#[derive(Clone, Copy)]
struct Search<'a> {
    list: &'a [Channel],
    room: u32,
    ghost few: { length list.now ≤ 16 },
}

impl Search<'_> {
    fn totals(&self, set: u32) -> Totals
        ensures maximum { result.maximum
            ≡ total (maximum self.now.list.now) set (length self.now.list.now) }
        ensures charge { result.charge
            ≡ total (charge self.now.list.now) set (length self.now.list.now) }
    {
        let mut t = Totals {
            maximum: 0,
            charge: 0,
        };
        let mut rest = set; // its bit 0 is the next channel's
        for c in self.list {
            if rest == 0 {
                break;
            }
            if is_in(rest, 0) {
                let one = alone(c);
                t.maximum += one.maximum;
                t.charge += one.charge;
            }
            rest >>= 1;
        }
        t
    }

    // What the set behind this one totals. In counting order it lacks the channels that this one has from the first on
    // without a gap, and has the one behind them: of all sets two on average.
    fn next(&self, t: Totals, set: u32) -> Totals
        requires most { (set < 65536) × (t.maximum ≤ set * 65535) × (t.charge ≤ set * 65535) }
        requires maximum { t.maximum ≡ total (maximum self.now.list.now) set (length self.now.list.now) }
        requires charge { t.charge ≡ total (charge self.now.list.now) set (length self.now.list.now) }
        ensures most_maximum { result.maximum ≤ (set + 1) * 65535 }
        ensures most_charge { result.charge ≤ (set + 1) * 65535 }
        ensures maximum { result.maximum
            ≡ total (maximum self.now.list.now) (set + 1) (length self.now.list.now) }
        ensures charge { result.charge
            ≡ total (charge self.now.list.now) (set + 1) (length self.now.list.now) }
    {
        let mut left = t;
        let mut rest = set; // its bit 0 is the next channel's
        for c in self.list {
            let one = alone(c);
            if !is_in(rest, 0) {
                return Totals {
                    maximum: left.maximum + one.maximum,
                    charge: left.charge + one.charge,
                };
            }
            left.maximum -= one.maximum;
            left.charge -= one.charge;
            rest >>= 1;
        }
        left
    }

    // The better one of the best so far and a later set, which totals t: the later one only if it fits and its total is
    // greater.
    fn look(&self, best: Found, set: u32, t: Totals) -> Found
        requires maximum { t.maximum ≡ total (maximum self.now.list.now) set (length self.now.list.now) }
        requires charge { t.charge ≡ total (charge self.now.list.now) set (length self.now.list.now) }
        ensures { result ≡ look (maximum self.now.list.now) (charge self.now.list.now)
            (length self.now.list.now) self.now.room best set }
    {
        if t.charge <= self.room && best.total < t.maximum {
            return Found {
                set,
                total: t.maximum,
            };
        }
        best
    }

    // The best among the first so many sets.
    fn best(&self, first: u32) -> Found
        requires { first ≤ 65536 }
        ensures { result ≡ best_of (maximum self.now.list.now) (charge self.now.list.now)
            (length self.now.list.now) self.now.room first }
    {
        let mut found = Found { set: 0, total: 0 };
        let mut t = Totals {
            maximum: 0,
            charge: 0,
        };
        for set in 0..first {
            found = self.look(found, set, t);
            t = self.next(t, set);
        }
        found
    }

    // How many sets there are.
    fn all_sets(&self) -> u32
        ensures { result ≡ 2 ^ length self.now.list.now }
    {
        1 << self.list.len()
    }

    // The best total if all sets were looked at, else the total of all maxima: that of the set that all are in.
    fn figure(&self, budget: u32, best: u32) -> u32
        ensures { result ≡ figure (maximum self.now.list.now) (length self.now.list.now) budget best }
    {
        if self.all_sets() <= budget {
            best
        } else {
            self.totals(0xFFFF).maximum
        }
    }
}

// Is channel i in the set?
pub fn is_in(set: u32, i: usize) -> bool
    requires { i < 16 }
    ensures { result ≡ bit_is_set set i }
{
    bits::is_set(set, i as u8)
}

// Searches the sets of channels for the best one that fits the bus time left.
pub fn choose(list: &[Channel], in_use: u32, budget: u32) -> Choice
    requires { length list.now ≤ 16 }
    ensures choice { result
        ≡ choice_of (maximum list.now) (charge list.now) (length list.now) in_use budget }
    // The same as two arrays say it that are filled from the list.
    ensures arrays { result ≡ choice_of (listed (lists_of list.now (length list.now)).maxima)
        (listed (lists_of list.now (length list.now)).charges) (length list.now) in_use budget }
{
    let search = Search {
        list,
        room: PERIODIC.saturating_sub(in_use),
    };
    let looked = budget.min(search.all_sets());
    let found = search.best(looked);
    Choice {
        set: found.set,
        total: found.total,
        figure: search.figure(budget, found.total),
        looked,
    }
}
