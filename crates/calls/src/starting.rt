// Start-up gives back the bus time that the driver was charged.
pub use crate::shared_time::start_up;
pub use crate::start::{allocate, start};
