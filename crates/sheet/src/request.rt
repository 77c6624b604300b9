// What a note asks of the entry book, in words.
ghost use Rattle.std.specs.Prelude.{Some};
ghost use Rattle.sheet.specs.Requests.{request};

use crate::amount::{Amount, Rate};
use protocol::note::Note;
use std::fmt;

#[derive(Clone, Copy, PartialEq, Eq, Debug)]
pub struct Request(pub Note);

impl fmt::Display for Request {
    ghost output = { λ x. Some (request x.0) };

    fn fmt<W: fmt::Write>(&self, f: &mut fmt::Formatter<W>) -> fmt::Result {
        let Note { a, b, c, d } = self.0;
        let amount = Amount(c);
        let rate = Rate(d);
        // by the number: a malformed note is shown by its kind too
        match a {
            1 => write!(f, "open entry {b}, price {amount} at {rate}"),
            2 => write!(f, "freight {amount} for entry {b}"),
            3 => write!(f, "insurance {amount} for entry {b}"),
            4 => write!(f, "close entry {b}"),
            _ => write!(f, "an unknown request"),
        }
    }
}
