// What is under way, which rows stop a call, how one ends: the machine of calls (specs/Suspended.antt) that the lent
// bytes are.
#![tactic(auto)]

pub mod saved; // saved.rt: what is under way
pub mod halts; // halts.rt: how a call ends
pub mod stops; // stops.rt: what stops a call: rows 1, 3 and 4
pub mod advance_stands; // advance_stands.rt: a paced advance stands at a point
pub mod bus_stands; // bus_stands.rt: an operation of the bus stands at a point
pub mod control_stands; // control_stands.rt: one of the control pipe
pub mod driver_stands; // driver_stands.rt: one of the driver's own
pub mod endpoint_stands; // endpoint_stands.rt: a read or write
pub mod points_loads; // points_loads.rt: what a point has, each part loaded alone
pub mod stands; // stands.rt: an operation stands at a point, all of whose bytes are stored, or ends
pub mod resume_op; // resume_op.rt: an operation under way goes on, whichever but the interrupt
mod advance_resumes; // advance_resumes.rt: a paced advance's points, one function each
mod bus_resumes; // bus_resumes.rt: the bus's
mod control_resumes; // control_resumes.rt: the control pipe's
mod driver_resumes; // driver_resumes.rt: the driver's own
mod endpoint_resumes; // endpoint_resumes.rt: a read's or write's

// What is under way: nothing, or an operation at the point where it handed out its last access.
#[derive(Clone, Copy)]
pub enum Suspended {
    Idle,
    Driver(driver::Point),
    Bus(bus::Point),
    Control(control::Point),
    Endpoint(endpoint::Point),
    Advance(isochronous::advance::Advance),
    Interrupt(interrupt::Point),
}
