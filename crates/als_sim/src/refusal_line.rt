ghost use Rattle.std.specs.Prelude.{Some};
ghost use Rattle.als_sim.specs.Lines.{refusal_line};

use als_engine::Fault;
use std::fmt;

/// The line of a refusal: its number, its name, and the number that it carries, if any.
#[derive(Clone, Copy)]
pub struct RefusalLine(pub Fault);

impl fmt::Display for RefusalLine {
    ghost output = { λ line. Some (refusal_line line.0) };

    fn fmt<W: fmt::Write>(&self, f: &mut fmt::Formatter<W>) -> fmt::Result {
        let fault = self.0;
        write!(f, "refused {fault}")
    }
}
