// Request Ten: the set of optional channels that fits the bus time left and whose maxima total the most.
#![tactic(auto)]

ghost use Rattle.std.specs.Prelude.{◌≡◌, ◌≤◌, length};
ghost use Rattle.channels.specs.Rows.{row_of};
ghost use Rattle.channels.specs.Channels.{flagged};
ghost use Rattle.channels.specs.Answers.{answer_of, list_after};

mod sets; // sets.rt: totals, and the best set among the first so many

const MOST_CHANNELS: usize = 16;

// A channel: its maximum and its charge in byte-times; its flag, which says whether it was chosen: 1 or 0.
#[repr(C)]
#[derive(Clone, Copy)]
pub struct Channel {
    pub maximum: u16,
    pub charge: u16,
    pub chosen: u8, // no bool: C lays the struct out, and any byte may stand there
}

// The chosen set as a count, whose bit i says whether channel i is in; the total of its maxima; a figure that no
// fitting set exceeds; how many sets were looked at.
#[derive(Clone, Copy, Debug, PartialEq, Eq)]
pub struct Choice {
    pub set: u32,
    pub total: u32,
    pub figure: u32,
    pub looked: u32,
}

// By which row of include/usbhs.h (enum usbhs_row) a call is refused, with its number there: a budget of 0 sets, or
// more than 16 channels.
#[derive(Clone, Copy, Debug, PartialEq, Eq)]
pub enum Refusal {
    Channels = 20,
}

impl Refusal {
    // The row's number.
    pub fn row(self) -> u8
        ensures { result ≡ row_of self }
    {
        self as u8
    }
}

// Marks the lent list: each flag becomes 1 for a channel of the set, else 0.
fn mark(list: &mut [Channel], set: u32)
    requires { length list.old ≤ 16 }
    ensures { list.new ≡ flagged list.old set (length list.old) }
{
    for (i, c) in list.iter_mut().enumerate() {
        c.chosen = sets::is_in(set, i) as u8;
    }
}

// Chooses among the channels of the lent list, and marks it: a channel's flag becomes 1 if it is in the chosen set, and
// 0 if not. A refusal leaves the list as it was.
pub fn best_set(list: &mut [Channel], in_use: u32, budget: u32) -> Result<Choice, Refusal>
    ensures answer { result ≡ answer_of list.old in_use budget }
    ensures marks { list.new ≡ list_after list.old in_use budget }
{
    if budget == 0 || MOST_CHANNELS < list.len() {
        return Err(Refusal::Channels);
    }
    let choice = sets::choose(list, in_use, budget);
    mark(list, choice.set);
    Ok(choice)
}
