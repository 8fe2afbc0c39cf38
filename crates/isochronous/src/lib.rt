// isochronous IN: completions, the SOF, late entries, paced advance; isochronous OUT: arrivals; packets opened and
// closed in place; packets queued in place.
#![tactic(auto)]

pub mod iso_in; // iso_in.rt: isochronous IN: completions, the SOF, late entries, paced advance
pub mod advance; // advance.rt: a paced endpoint's completions
pub mod points; // points.rt: the numbers of an advance's points, and what is saved of each
pub mod complete; // complete.rt: one completion
pub mod late; // late.rt: the completions of a late entry
pub mod sof; // sof.rt: a microframe's SOF
pub mod out; // out.rt: isochronous OUT: arrivals
pub mod open_close; // open_close.rt: packets opened and closed in place
pub mod queue; // queue.rt: packets queued in place
