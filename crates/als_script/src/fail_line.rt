ghost use Rattle.std.specs.Prelude.{◌<◌};

use crate::device::Device;
use crate::words::Words;

/// A line that makes a device fail: `fail log K`, `fail control K` or `fail pages K`.
#[derive(Clone, Copy)]
pub struct FailLine {
    pub device: Device,
    /// Which of the device's next calls fails, counted from 1.
    pub call: u64,
    ghost from_one: { 0 < call },
}

impl FailLine {
    /// What a line makes fail; None where it is no such line.
    pub fn parse(line: &str) -> Option<FailLine> {
        let mut words = Words::of(line);
        if words.next()? != "fail" {
            return None;
        }
        let device = Device::named(words.next()?)?;
        let call = words.number()?;
        if call == 0 {
            return None;
        }
        words.ending(FailLine { device, call })
    }
}
