use als_record::Image;
use std::fmt;

/// An image as scripts write it.
#[derive(Drop)]
pub struct ShownImage<'a>(pub &'a Image);

impl fmt::Display for ShownImage<'_> {
    fn fmt<W: fmt::Write>(&self, f: &mut fmt::Formatter<W>) -> fmt::Result {
        match self.0 {
            None => f.write_str("-"),
            Some(value) if value.is_empty() => f.write_str("."),
            Some(value) => {
                for byte in value.as_slice() {
                    write!(f, "{byte:02x}")?;
                }
                Ok(())
            }
        }
    }
}
