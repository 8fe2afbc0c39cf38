// An operation of the driver's own stands at a point, whose bytes are stored where it is made.
ghost use Rattle.std.specs.Prelude.{◌≡◌};
ghost use Rattle.state.specs.State.{view, saved};
ghost use Rattle.script.specs.Statics.{flag};
ghost use Rattle.script_ops.specs.Numbers as tags;
ghost use Rattle.driver.specs.declared.Point.TheVariants as Point;
ghost use Rattle.driver.specs.Codec.{code, list_code, dir_as, with_tag};
ghost use Rattle.answer.specs.declared.Step.TheVariants as Step;
ghost use Rattle.machine.specs.declared.Suspended.TheVariants as Under;
ghost use Rattle.machine.specs.Stands.{Stands};

use crate::stands::stand;
use answer::Step;
use driver::points::{
    EP0_MAX_LEN, EP0_PACKET, EP0_RX, EP0_TX, HOST, INT_EN, LIST_MAX_LEN, LIST_PLACE, PLACE, RESET,
    RESET_END, RUN, WAIT, endpoint, point,
};
use regs::{Access, Dir};
use state::State;

// At the point with this number, of start-up with the callback.
fn at(s: &mut State, q: Access, number: u8, callback: bool) -> Step
    ensures { (result ≡ Step.Asks q) × ((view s.new ≡ view s.old)
        × (saved s.new ≡ with_tag tags.DRIVER (code number (flag callback) 0 0 0))) }
{
    stand(s, q, point(number, callback, 0))
}

// At one of an endpoint that is announced.
fn at_endpoint(
    s: &mut State,
    q: Access,
    number: u8,
    d: Dir,
    kind: u8,
    ep: u8,
    left: u8,
    total: u8,
) -> Step
    ensures { (result ≡ Step.Asks q) × ((view s.new ≡ view s.old)
        × (saved s.new ≡ with_tag tags.DRIVER (list_code number (dir_as d) kind ep left total))) }
{
    stand(s, q, endpoint(number, d, kind, ep, left, total))
}

// The wait; with the callback, as the next four.
pub fn stand_wait(s: &mut State, q: Access, on: bool) -> Step
    ensures { Stands result q (Under.Driver (Point.Wait on)) s.old s.new }
{
    at(s, q, WAIT, on)
}

// Ctrl is read.
pub fn stand_reset(s: &mut State, q: Access, on: bool) -> Step
    ensures { Stands result q (Under.Driver (Point.Reset on)) s.old s.new }
{
    at(s, q, RESET, on)
}

// The reset is ended.
pub fn stand_reset_end(s: &mut State, q: Access, on: bool) -> Step
    ensures { Stands result q (Under.Driver (Point.ResetEnd on)) s.old s.new }
{
    at(s, q, RESET_END, on)
}

// Host_ctrl is written.
pub fn stand_host(s: &mut State, q: Access, on: bool) -> Step
    ensures { Stands result q (Under.Driver (Point.Host on)) s.old s.new }
{
    at(s, q, HOST, on)
}

// Ctrl is.
pub fn stand_run(s: &mut State, q: Access, on: bool) -> Step
    ensures { Stands result q (Under.Driver (Point.Run on)) s.old s.new }
{
    at(s, q, RUN, on)
}

// Int_en is.
pub fn stand_int_en(s: &mut State, q: Access) -> Step
    ensures { Stands result q (Under.Driver Point.IntEn) s.old s.new }
{
    at(s, q, INT_EN, false)
}

// A new endpoint's address is.
pub fn stand_place(s: &mut State, q: Access, ep: u8) -> Step
    ensures { Stands result q (Under.Driver (Point.Place ep)) s.old s.new }
{
    at_endpoint(s, q, PLACE, Dir::Out, 0, ep, 0, 0)
}

// EP0's maximum is.
pub fn stand_ep0_max_len(s: &mut State, q: Access) -> Step
    ensures { Stands result q (Under.Driver Point.Ep0MaxLen) s.old s.new }
{
    at(s, q, EP0_MAX_LEN, false)
}

// Its OUT answers NAK.
pub fn stand_ep0_rx(s: &mut State, q: Access) -> Step
    ensures { Stands result q (Under.Driver Point.Ep0Rx) s.old s.new }
{
    at(s, q, EP0_RX, false)
}

// Its IN does.
pub fn stand_ep0_tx(s: &mut State, q: Access) -> Step
    ensures { Stands result q (Under.Driver Point.Ep0Tx) s.old s.new }
{
    at(s, q, EP0_TX, false)
}

// Its packet's maximum is written.
pub fn stand_ep0_packet(s: &mut State, q: Access) -> Step
    ensures { Stands result q (Under.Driver Point.Ep0Packet) s.old s.new }
{
    at(s, q, EP0_PACKET, false)
}

// Of a list's endpoint the maximum is written.
pub fn stand_list_max_len(
    s: &mut State,
    q: Access,
    dir: Dir,
    kind: u8,
    ep: u8,
    left: u8,
    total: u8,
) -> Step
    ensures { Stands result q (Under.Driver (Point.ListMaxLen dir kind ep left total)) s.old
        s.new }
{
    at_endpoint(s, q, LIST_MAX_LEN, dir, kind, ep, left, total)
}

// Its address is.
pub fn stand_list_place(s: &mut State, q: Access, dir: Dir, ep: u8, left: u8, total: u8) -> Step
    ensures { Stands result q (Under.Driver (Point.ListPlace dir ep left total)) s.old s.new }
{
    at_endpoint(s, q, LIST_PLACE, dir, 0, ep, left, total)
}
