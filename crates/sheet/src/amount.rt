// Amounts and rates as declarants write them.
ghost use Rattle.std.specs.Prelude.{Some};
ghost use Rattle.sheet.specs.Amounts.{amount, given, rate, units};

use std::fmt;

// A whole number of currency units, in groups of three digits: 5,000.
#[derive(Clone, Copy, PartialEq, Eq, Debug)]
struct Units(u32);

impl fmt::Display for Units {
    ghost output = { λ x. Some (units x.0) };

    fn fmt<W: fmt::Write>(&self, f: &mut fmt::Formatter<W>) -> fmt::Result {
        let (thousands, rest) = (self.0 / 1000, self.0 % 1000);
        let (millions, middle) = (thousands / 1000, thousands % 1000);
        if thousands == 0 {
            write!(f, "{rest}")
        } else if millions == 0 {
            write!(f, "{thousands},{rest:03}")
        } else {
            write!(f, "{millions},{middle:03},{rest:03}")
        }
    }
}

// An amount in cents: 5,000.00.
#[derive(Clone, Copy, PartialEq, Eq, Debug)]
pub struct Amount(pub u32);

impl fmt::Display for Amount {
    ghost output = { λ x. Some (amount x.0) };

    fn fmt<W: fmt::Write>(&self, f: &mut fmt::Formatter<W>) -> fmt::Result {
        let cents = self.0 % 100;
        write!(f, "{}.{cents:02}", Units(self.0 / 100))
    }
}

// An amount that may be absent.
#[derive(Clone, Copy, PartialEq, Eq, Debug)]
pub struct Given(pub Option<u32>);

impl fmt::Display for Given {
    ghost output = { λ x. Some (given x.0) };

    fn fmt<W: fmt::Write>(&self, f: &mut fmt::Formatter<W>) -> fmt::Result {
        match self.0 {
            Some(cents) => write!(f, "{}", Amount(cents)),
            None => write!(f, "not given"),
        }
    }
}

// A rate in hundredths of a per cent: 12.00 per cent.
#[derive(Clone, Copy, PartialEq, Eq, Debug)]
pub struct Rate(pub u32);

impl fmt::Display for Rate {
    ghost output = { λ x. Some (rate x.0) };

    fn fmt<W: fmt::Write>(&self, f: &mut fmt::Formatter<W>) -> fmt::Result {
        write!(f, "{} per cent", Amount(self.0))
    }
}
