// Each write of a kept register goes through one of these.
ghost use Rattle.std.specs.Prelude.{◌≡◌};
ghost use Rattle.state.specs.Driver.{with_globals};
ghost use Rattle.state.specs.State.{view, saved};
ghost use Rattle.state.specs.Kept.{with_ep_config, with_ep_type, with_int_en};

use crate::{State, load_globals, store_globals};

// Keeps the value last written to ep_config.
pub fn set_ep_config(s: &mut State, v: u32)
    ensures s_after { view s.new ≡ with_globals (view s.old)
        (with_ep_config v (view s.old).globals) }
    ensures s_unchanged { saved s.new ≡ saved s.old }
{
    let mut g = load_globals(s);
    g.ep_config = v;
    store_globals(s, g);
}

// Keeps the value last written to ep_type.
pub fn set_ep_type(s: &mut State, v: u32)
    ensures s_after { view s.new ≡ with_globals (view s.old)
        (with_ep_type v (view s.old).globals) }
    ensures s_unchanged { saved s.new ≡ saved s.old }
{
    let mut g = load_globals(s);
    g.ep_type = v;
    store_globals(s, g);
}

// Keeps the value last written to int_en.
pub fn set_int_en(s: &mut State, v: u8)
    ensures s_after { view s.new ≡ with_globals (view s.old)
        (with_int_en v (view s.old).globals) }
    ensures s_unchanged { saved s.new ≡ saved s.old }
{
    let mut g = load_globals(s);
    g.int_en = v;
    store_globals(s, g);
}
