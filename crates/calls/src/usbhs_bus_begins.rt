// An enabling is charged bus time.
pub use crate::bus_begins::{
    begin_bus_disable, begin_bus_enable, begin_bus_poll, begin_is_stalled, begin_set_stalled,
};
pub use crate::shared_time::begin_set_enabled;
