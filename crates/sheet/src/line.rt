// One entry as the hand-over sheet shows it.
ghost use Rattle.std.specs.Prelude.{Some};
ghost use Rattle.sheet.specs.Sheet.{duty_words, sheet_line};

use crate::amount::{Amount, Given, Rate};
use entries::customs_entry::CustomsEntry;
use std::fmt;

// How far an entry's duty has come.
#[derive(Clone, Copy, PartialEq, Eq, Debug)]
struct Duty(Option<u32>);

impl fmt::Display for Duty {
    ghost output = { λ x. Some (duty_words x.0) };

    fn fmt<W: fmt::Write>(&self, f: &mut fmt::Formatter<W>) -> fmt::Result {
        match self.0 {
            Some(cents) => write!(f, "duty {}, to be filed", Amount(cents)),
            None => write!(f, "awaiting duty"),
        }
    }
}

// The sheet's line of an entry.
#[derive(Clone, Copy, PartialEq, Eq, Debug)]
pub struct SheetLine(pub CustomsEntry);

impl fmt::Display for SheetLine {
    ghost output = { λ x. Some (sheet_line x.0) };

    fn fmt<W: fmt::Write>(&self, f: &mut fmt::Formatter<W>) -> fmt::Result {
        let number = self.0.number;
        let price = Amount(self.0.price);
        let rate = Rate(self.0.rate);
        let freight = Given(self.0.freight);
        let insurance = Given(self.0.insurance);
        let duty = Duty(self.0.duty);
        write!(
            f,
            "entry {number}: price {price} at {rate}, freight {freight}, insurance {insurance}; {duty}"
        )
    }
}
