// The begins that no pipe has, and endpoints from a configuration descriptor.
// The calls of the bus.
// The calls of the control pipe.
// The calls on an endpoint.
// The driver's calls: what stops one, what it begins, what it answers. Each call is one step of the machine of calls
// (crate `machine`) that the lent bytes are; start-up, enabling and continue also bring the record of bus time
// (`shared_time`).
#![tactic(auto)]

pub mod start; // start.rt: calls: start-up, allocation, EP0's start
pub mod begins; // begins.rt: the microframe, pacing, a paced advance, the interrupt
pub mod listed_calls; // listed_calls.rt: endpoints from a configuration descriptor
pub mod bus_begins; // bus_begins.rt: enable, disable, poll, stalls, endpoints enabled
pub mod control_begins; // control_begins.rt: the begins of its stages
pub mod control_polls; // control_polls.rt: their polls
pub mod in_place; // in_place.rt: packets opened, closed and queued in their slots
pub mod questions; // questions.rt: pending, overruns, enabled
pub mod requests; // requests.rt: reads and writes
pub mod shared_time; // shared_time.rt: start-up and enabling with the bus time that drivers share; the record after a continue
pub mod charges; // charges.rt: the record after a call
pub mod resume; // resume.rt: continue
pub mod usbhs_bus_begins; // usbhs_bus_begins.rt: the bus, stalls, endpoints enabled
pub mod operates; // operates.rt: continue, of any operation but the interrupt
pub mod proceeds; // proceeds.rt: continue
pub mod starting; // starting.rt: start-up, allocation, EP0's start

pub use answer::Step;
