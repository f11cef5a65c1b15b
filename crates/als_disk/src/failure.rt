use std::io;

/// Why a device's file failed.
#[derive(Clone, Copy, Debug, PartialEq, Eq)]
pub enum Failure {
    /// A call failed with this error number of the system.
    Call { number: i32 },
    /// The file has no name any more: it was removed, or another one took its name.
    Removed,
    /// The file was cut to this length, which is less than its blocks take.
    Cut { bytes: u64 },
}

/// The number of a failure of which the system gave none: an input or output error.
const EIO: i32 = 5;

impl Failure {
    /// The failure of a call.
    pub(crate) fn of_call(error: &io::Error) -> Failure {
        let number = error.raw_os_error().unwrap_or(EIO);
        Failure::Call { number }
    }
}
