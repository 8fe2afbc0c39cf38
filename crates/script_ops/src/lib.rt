// The operations of scripts on the state in lent bytes and the lent buffer.
#![tactic(auto)]

pub mod records; // records.rt: wake-ups, enabling, addresses of buffers, allocation
pub mod rings; // rings.rt: rings of packets, and the buffers of endpoints
pub mod rows; // rows.rt: rows 4 and 5: endpoints by the numbers that calls bring
pub mod slots; // slots.rt: arrivals, slots that are armed, records that are reset
pub mod points; // points.rt: what the points of every operation have in common
