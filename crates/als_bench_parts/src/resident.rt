use std::fs;
use std::rt::Files;

/// The memory of this process, in the machine's pages. `None`: the machine does not say.
pub fn resident<R: Files + AllocGlobal>(rt: &R) -> Option<u64> {
    let text = fs::read_to_string(rt, "/proc/self/statm").ok()?;
    text.as_str().split_whitespace().nth(1)?.parse::<u64>().ok()
}
