ghost use Rattle.std.specs.Prelude.{◌≤◌, length};

/// The position of a scan in the structure of a JSON text.
#[derive(Clone, Copy)]
struct Scan {
    /// How many objects and arrays are open.
    depth: u64,
    in_string: bool,
    /// Whether the byte before, in a string, is a backslash that escapes this one.
    is_escaped: bool,
}

impl Scan {
    /// Scans a byte. Returns whether it ends an item of the scanned array.
    fn ends_by(&mut self, byte: u8) -> bool {
        if self.in_string {
            self.pass_string(byte);
            return false;
        }
        match byte {
            b'"' => self.in_string = true,
            b'{' | b'[' => self.depth = self.depth.saturating_add(1),
            b'}' | b']' => self.depth = self.depth.saturating_sub(1),
            _ => {}
        }
        byte == b',' && self.depth == 0
    }

    /// Scans a byte of a string.
    fn pass_string(&mut self, byte: u8) {
        if self.is_escaped {
            self.is_escaped = false;
        } else if byte == b'\\' {
            self.is_escaped = true;
        } else if byte == b'"' {
            self.in_string = false;
        }
    }
}

/// The bytes up to the comma that ends the first of these items, or all of them.
pub(crate) fn item_len(items: &[u8]) -> usize
    ensures { result ≤ length items.now }
{
    let mut scan = Scan {
        depth: 0,
        in_string: false,
        is_escaped: false,
    };
    for i in 0..items.len() {
        if scan.ends_by(items[i]) {
            return i;
        }
    }
    items.len()
}
