// Each record's bytes, from o: read field by field, and written.
ghost use Rattle.std.specs.Prelude.{◌≡◌, ◌+◌, ◌≤◌};
ghost use Rattle.bits.specs.Bytes.{gets, puts, numbers, bytes, Each};
ghost use Rattle.state.specs.Codec.{ep_widths, ep_as, allocator_widths, allocator_as, globals_widths, globals_as};
ghost use Rattle.state.specs.Codec.{request_widths, request_as, control_widths, control_as, saved_widths, saved_as};

use crate::{Allocator, Control, EpState, Globals, Request, Saved, State};
use bits::le_bytes::{get8, get8x5, get16, get16x5, get32, put8, put8x5, put16, put16x5, put32};

// Reads an endpoint's record at o.
pub fn read_ep(s: &State, o: usize) -> EpState
    requires { o + 32 ≤ 2999 }
    ensures { Each (ep_as result) (numbers ep_widths (gets s.now o 0 32)) }
{
    let a = get16x5(s, o, 12);
    let b = get8x5(s, o, 24);
    EpState {
        base: get32(s, o, 0),
        overruns: get32(s, o, 4),
        armed_slot: get32(s, o, 8),
        len: a.0,
        stride: a.1,
        last_frame: a.2,
        max_len: a.3,
        tog: a.4,
        open: get16(s, o, 22),
        ready: b.0,
        armed: b.1,
        iso: b.2,
        kind: b.3,
        slots: b.4,
        head: get8(s, o, 29),
        tail: get8(s, o, 30),
        loaded: get8(s, o, 31),
    }
}

// Stores an endpoint's record at o.
pub fn write_ep(s: &mut State, o: usize, r: EpState)
    requires { o + 32 ≤ 2999 }
    ensures { s.new ≡ puts s.old o 0 (bytes ep_widths (ep_as r)) }
{
    put32(s, o, 0, r.base);
    put32(s, o, 4, r.overruns);
    put32(s, o, 8, r.armed_slot);
    put16x5(s, o, 12, r.len, r.stride, r.last_frame, r.max_len, r.tog);
    put16(s, o, 22, r.open);
    put8x5(s, o, 24, r.ready, r.armed, r.iso, r.kind, r.slots);
    put8(s, o, 29, r.head);
    put8(s, o, 30, r.tail);
    put8(s, o, 31, r.loaded);
}

// Reads the allocator's record at o.
pub fn read_allocator(s: &State, o: usize) -> Allocator
    requires { o + 18 ≤ 2999 }
    ensures { Each (allocator_as result) (numbers allocator_widths (gets s.now o 0 18)) }
{
    let a = get16x5(s, o, 0);
    Allocator {
        size: a.0,
        count: a.1,
        next: a.2,
        taken_out: a.3,
        taken_in: a.4,
        iso_nums: get16(s, o, 10),
        other_nums: get16(s, o, 12),
        allocated_out: get16(s, o, 14),
        allocated_in: get16(s, o, 16),
    }
}

// Stores the allocator's record at o.
pub fn write_allocator(s: &mut State, o: usize, r: Allocator)
    requires { o + 18 ≤ 2999 }
    ensures { s.new ≡ puts s.old o 0 (bytes allocator_widths (allocator_as r)) }
{
    put16x5(s, o, 0, r.size, r.count, r.next, r.taken_out, r.taken_in);
    put16(s, o, 10, r.iso_nums);
    put16(s, o, 12, r.other_nums);
    put16(s, o, 14, r.allocated_out);
    put16(s, o, 16, r.allocated_in);
}

// Reads the record of globals at o.
pub fn read_globals(s: &State, o: usize) -> Globals
    requires { o + 37 ≤ 2999 }
    ensures { Each (globals_as result) (numbers globals_widths (gets s.now o 0 37)) }
{
    let a = get16x5(s, o, 20);
    let b = get8x5(s, o, 32);
    Globals {
        setup_low: get32(s, o, 0),
        setup_high: get32(s, o, 4),
        ep_config: get32(s, o, 8),
        ep_type: get32(s, o, 12),
        ep0_buf: get32(s, o, 16),
        iso_out_eps: a.0,
        iso_in_every: a.1,
        iso_in_paced: a.2,
        sof_frame: a.3,
        ep0_max: a.4,
        entered: get16(s, o, 30),
        stage: b.0,
        callback: b.1,
        power: b.2,
        setup_ready: b.3,
        int_en: b.4,
    }
}

// Stores the record of globals at o.
pub fn write_globals(s: &mut State, o: usize, r: Globals)
    requires { o + 37 ≤ 2999 }
    ensures { s.new ≡ puts s.old o 0 (bytes globals_widths (globals_as r)) }
{
    put32(s, o, 0, r.setup_low);
    put32(s, o, 4, r.setup_high);
    put32(s, o, 8, r.ep_config);
    put32(s, o, 12, r.ep_type);
    put32(s, o, 16, r.ep0_buf);
    put16x5(
        s,
        o,
        20,
        r.iso_out_eps,
        r.iso_in_every,
        r.iso_in_paced,
        r.sof_frame,
        r.ep0_max,
    );
    put16(s, o, 30, r.entered);
    put8x5(
        s,
        o,
        32,
        r.stage,
        r.callback,
        r.power,
        r.setup_ready,
        r.int_en,
    );
}

// Reads a request's record at o.
pub fn read_request(s: &State, o: usize) -> Request
    requires { o + 8 ≤ 2999 }
    ensures { Each (request_as result) (numbers request_widths (gets s.now o 0 8)) }
{
    Request {
        begun: get32(s, o, 0),
        length: get32(s, o, 4),
    }
}

// Stores a request's record at o.
pub fn write_request(s: &mut State, o: usize, r: Request)
    requires { o + 8 ≤ 2999 }
    ensures { s.new ≡ puts s.old o 0 (bytes request_widths (request_as r)) }
{
    put32(s, o, 0, r.begun);
    put32(s, o, 4, r.length);
}

// Reads the control request's record at o.
pub fn read_control(s: &State, o: usize) -> Control
    requires { o + 9 ≤ 2999 }
    ensures { Each (control_as result) (numbers control_widths (gets s.now o 0 9)) }
{
    Control {
        sort: get8(s, o, 0),
        last: get8(s, o, 1),
        length: get32(s, o, 2),
        wait: get8(s, o, 6),
        sets_address: get8(s, o, 7),
        address: get8(s, o, 8),
    }
}

// Stores the control request's record at o.
pub fn write_control(s: &mut State, o: usize, r: Control)
    requires { o + 9 ≤ 2999 }
    ensures { s.new ≡ puts s.old o 0 (bytes control_widths (control_as r)) }
{
    put8(s, o, 0, r.sort);
    put8(s, o, 1, r.last);
    put32(s, o, 2, r.length);
    put8(s, o, 6, r.wait);
    put8(s, o, 7, r.sets_address);
    put8(s, o, 8, r.address);
}

// Reads the record of a suspended operation at o.
pub fn read_saved(s: &State, o: usize) -> Saved
    requires { o + 22 ≤ 2999 }
    ensures { Each (saved_as result) (numbers saved_widths (gets s.now o 0 22)) }
{
    let a = get8x5(s, o, 12);
    let b = get8x5(s, o, 17);
    Saved {
        value: get32(s, o, 0),
        len: get16(s, o, 4),
        frame: get16(s, o, 6),
        eps: get16(s, o, 8),
        n: get16(s, o, 10),
        tag: a.0,
        sub: a.1,
        site: a.2,
        flag: a.3,
        busy: a.4,
        late: b.0,
        len_ok: b.1,
        st: b.2,
        now: b.3,
        ep: b.4,
    }
}

// Stores the record of a suspended operation at o.
pub fn write_saved(s: &mut State, o: usize, r: Saved)
    requires { o + 22 ≤ 2999 }
    ensures { s.new ≡ puts s.old o 0 (bytes saved_widths (saved_as r)) }
{
    put32(s, o, 0, r.value);
    put16(s, o, 4, r.len);
    put16(s, o, 6, r.frame);
    put16(s, o, 8, r.eps);
    put16(s, o, 10, r.n);
    put8x5(s, o, 12, r.tag, r.sub, r.site, r.flag, r.busy);
    put8x5(s, o, 17, r.late, r.len_ok, r.st, r.now, r.ep);
}
