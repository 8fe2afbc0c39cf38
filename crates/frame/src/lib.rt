// Frame numbers (mod.rs: microframe_index, frame_of_index, iso_in_advance, on_sof).
#![tactic(auto)]

ghost use Rattle.std.specs.Prelude.{◌≡◌, min};
ghost use Rattle.frame.specs.Usb20.{index_of, frame_of};
ghost use Rattle.frame.specs.Advance.{is_none, distance, previous, completions, in_previous};

// The register's frame number: frame in bits 0-10, microframe in bits 13-15.
#[derive(Clone, Copy)]
pub struct Frame(pub u16);

// The running microframe index: frame × 8 + microframe.
#[derive(Clone, Copy)]
pub struct Index(pub u16);

// Bits 11 and 12, which are 0 in every frame number of an index: never a frame.
pub const NO_FRAME: u16 = 0x1800;

const MICROFRAME_MASK: u16 = (1 << 14) - 1;

// Whether a frame number says that there is none.
pub fn is_none(frame: Frame) -> bool
    ensures { result ≡ is_none frame.0 }
{
    frame.0 == NO_FRAME
}

// A frame number as a microframe count.
pub fn microframe_index(frame: Frame) -> Index
    ensures { result.0 ≡ index_of frame.0 }
{
    Index((frame.0 & 0x7FF) << 3 | frame.0 >> 13)
}

// The register's form of a microframe index.
pub fn frame_of_index(i: Index) -> Frame
    ensures { result.0 ≡ frame_of i.0 }
{
    Frame((i.0 >> 3) & 0x7FF | (i.0 & 7) << 13)
}

// How many microframes after one index comes another, going round at 2^14.
pub fn distance(from: Index, to: Index) -> u16
    ensures { result ≡ distance from.0 to.0 }
{
    std::num::wrapping_sub_u16(to.0, from.0) & MICROFRAME_MASK
}

// The microframe index before this one.
pub fn previous(i: Index) -> Index
    ensures { result.0 ≡ previous i.0 }
{
    Index(std::num::wrapping_sub_u16(i.0, 1) & MICROFRAME_MASK)
}

fn at_most_3(n: u16) -> u16
    ensures { result ≡ min n 3 }
{
    if n < 3 { n } else { 3 }
}

// What a paced advance completes (iso_in_advance): the microframes since the last, at most 3; one where there was none.
pub fn completions(last: Frame, now: Index) -> u16
    ensures { result ≡ completions last.0 now.0 }
{
    if is_none(last) {
        return 1;
    }
    at_most_3(distance(microframe_index(last), now))
}

// Was the last completion in the microframe before this one (on_sof)?
pub fn in_previous(last: Frame, frame: Frame) -> bool
    ensures { result ≡ in_previous last.0 frame.0 }
{
    if is_none(last) {
        return false;
    }
    let then = microframe_index(last);
    let before = previous(microframe_index(frame));
    then.0 == before.0
}
