/// A device of the simulated standby.
#[derive(Clone, Copy)]
pub enum Device {
    /// The log's.
    Log,
    /// The control block's.
    Control,
    /// The pages'.
    Pages,
}

impl Device {
    /// The device of a name; None where no device has it.
    pub fn named(name: &str) -> Option<Device> {
        match name {
            "log" => Some(Device::Log),
            "control" => Some(Device::Control),
            "pages" => Some(Device::Pages),
            _ => None,
        }
    }
}
