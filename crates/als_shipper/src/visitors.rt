ghost use Rattle.std.specs.Prelude.{◌≡◌, List, IfOk, IfErr};
ghost use Rattle.als_shipper.specs.Visits.{Visit, comes, goes};

use std::io;
use std::io::{Read, Write};

/// Those who come to a shipper, one after another.
pub trait Visitors<S: Read + Write> {
    /// Those who came, the last one first: what each asked, and what was written to it.
    ghost met: { Self → List Visit };

    /// Waits for the next who comes. Its stream is answered twice: to be read, and to be written.
    fn next(&mut self) -> io::Result<(S, S)>
        ensures comes { IfOk result (λ streams. met self.new
            ≡ comes (S.remaining streams.0) (S.contents streams.1) (met self.old)) }
        ensures none { IfErr result (λ _. met self.new ≡ met self.old) };

    /// The last who came goes: its streams are closed.
    fn part(&mut self, reader: S, writer: S)
        ensures goes { met self.new ≡ goes (S.remaining reader) (S.contents writer) (met self.old) };
}
