ghost use Rattle.std.specs.Prelude.{◌≡◌, true, List, ℕ};
ghost use Rattle.state.specs.Driver.{Driver};
ghost use Rattle.state.specs.State.{view, saved};
ghost use Rattle.driver.specs.Points as driver;
ghost use Rattle.bus.specs.Points as bus;
ghost use Rattle.control.specs.Points as control;
ghost use Rattle.endpoint.specs.Points as endpoint;
ghost use Rattle.isochronous.specs.Advance as advance;
ghost use Rattle.interrupt.specs.declared.Point.TheVariants as Point;
ghost use Rattle.machine.specs.declared.Suspended.TheVariants as Under;
ghost use Rattle.machine.specs.declared.Suspended.{Suspended};
ghost use Rattle.machine.specs.Suspended.{decode, machine_at, machine_of, halts};
ghost use Rattle.machine.specs.Suspended.{answer_of, SavedByAnswer, Stored, KeepsSaved};
ghost use Rattle.machine.specs.Stands.{Stands, halted, StepsTo};
ghost use Rattle.machine.specs.Rows.{is_idle};

use crate::stands::{stand, stop};
use answer::Step;
use interrupt::stands::store_frame;
use isochronous::advance::AdvanceNext;
use regs::Access;
use state::State;

// It goes on, or has ended.
pub fn suspend_or_end(s: &mut State, n: driver::Next) -> Step
    requires { driver.Linked n }
    ensures steps_to { StepsTo result s.new (λ b. halted (driver.meaning n (view s.old) b)) }
    ensures stored { Stored result s.new }
{
    match n {
        driver::Next::Asks(q, c) => stand(s, q, c),
        driver::Next::Ends(k) => stop(s, k),
    }
}

// The same of the bus's operations.
pub fn suspend_or_end_bus(s: &mut State, n: bus::Next) -> Step
    requires { bus.Linked n }
    ensures steps_to { StepsTo result s.new (λ b. halted (bus.meaning n (view s.old) b)) }
    ensures stored { Stored result s.new }
{
    match n {
        bus::Next::Asks(q, c) => stand(s, q, c),
        bus::Next::Ends(k) => stop(s, k),
    }
}

// A begin of the control pipe's, with nothing under way.
pub fn begun_control(s: &mut State, n: control::Begun) -> Step
    requires { control.LinkedBegun n × (is_idle (decode (saved s.old)) ≡ true) }
    ensures steps_to { StepsTo result s.new (λ b. halts (control.begun_as n (view s.old) b)) }
    ensures saved_by_answer { SavedByAnswer result s.old s.new }
{
    match n {
        control::Begun::Refused(k) => Step::Refused(k),
        control::Begun::Asks(q, c) => stand(s, q, c),
        control::Begun::Ends(k) => stop(s, k),
    }
}

// A poll of the control pipe's, with nothing under way.
pub fn polled_control(s: &mut State, n: control::Polled) -> Step
    requires { control.LinkedPolled n × (is_idle (decode (saved s.old)) ≡ true) }
    ensures by_index { (out b : List ℕ) → (
      answer_of result out (view s.new),
      machine_of s.new b,
    ) ≡ halts (control.polled_as n out (view s.old) b) }
    ensures saved_by_answer { SavedByAnswer result s.old s.new }
{
    match n {
        control::Polled::Refused(k) => Step::Refused(k),
        control::Polled::NotYet => Step::NotYet,
        control::Polled::Done(k) => Step::Done(k),
        control::Polled::Setup(low, high) => Step::Setup(low, high),
        control::Polled::Asks(q, c) => stand(s, q, c),
    }
}

// Of a paced advance.
pub fn suspend_or_end_advance(s: &mut State, n: AdvanceNext) -> Step
    requires { advance.Linked n }
    ensures steps_to { StepsTo result s.new (λ b. halted (advance.meaning n (view s.old) b)) }
    ensures stored { Stored result s.new }
{
    match n {
        AdvanceNext::Asks(q, c) => stand(s, q, c),
        AdvanceNext::Ends(k) => stop(s, k),
    }
}

// An interrupt begins with a reading of frame_no.
pub fn suspend_interrupt(s: &mut State, q: Access) -> Step
    ensures { Stands result q (Under.Interrupt Point.Frame) s.old s.new }
{
    store_frame(s);
    Step::Asks(q)
}

// A begin of a read or write, with nothing under way.
pub fn begun_endpoint(s: &mut State, n: endpoint::Begun) -> Step
    requires { endpoint.LinkedBegun n × (is_idle (decode (saved s.old)) ≡ true) }
    ensures steps_to { StepsTo result s.new (λ b. halts (endpoint.begun_as n (view s.old) b)) }
    ensures saved_by_answer { SavedByAnswer result s.old s.new }
{
    match n {
        endpoint::Begun::Refused(k) => Step::Refused(k),
        endpoint::Begun::Asks(q, c) => stand(s, q, c),
        endpoint::Begun::Ends(k) => stop(s, k),
    }
}

// A poll of one.
pub fn polled_endpoint(n: endpoint::Polled) -> Step
    ensures b_value { (u : Suspended) (d : Driver) (out b : List ℕ) → is_idle u ≡ true → (
      answer_of result out d,
      machine_at u d b,
    ) ≡ halts (endpoint.polled_as n out d b) }
    ensures keeps_saved { KeepsSaved result }
{
    match n {
        endpoint::Polled::Refused(k) => Step::Refused(k),
        endpoint::Polled::NotYet => Step::NotYet,
        endpoint::Polled::Done(k) => Step::Done(k),
    }
}
