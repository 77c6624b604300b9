// An entry of the entry book, and what an act makes of it.
ghost use Rattle.std.specs.Prelude.{◌≡◌, ◌≤◌, true};
ghost use Rattle.entries.specs.Limits.{max_duty};
ghost use Rattle.entries.specs.EntryBook.{in_range, duty_of, amount_verdict, closing_verdict, known_verdict, entry_after, lawful_act};

use crate::entry_act::EntryAct;
use crate::entry_verdict::EntryVerdict;
use crate::limits::WHOLE_RATE;

// An entry has a price and a rate from its opening on; freight, insurance and duty are absent until given.
// Amounts are in cents, the rate in hundredths of a per cent. An entry that has its duty is closed.
#[derive(Clone, Copy, PartialEq, Eq, Debug)]
pub struct CustomsEntry {
    pub number: u32,
    pub price: u32,
    pub rate: u32,
    pub freight: Option<u32>,
    pub insurance: Option<u32>,
    pub duty: Option<u32>,
}

impl CustomsEntry {
    // The duty on price, freight and insurance, rounded down. An absent insurance counts 0.
    fn duty_due(&self) -> u32
        requires { in_range self.now ≡ true }
        ensures value { result ≡ duty_of self.now }
        ensures bound { result ≤ max_duty }
    {
        let freight = self.freight.unwrap_or(0);
        let insurance = self.insurance.unwrap_or(0);
        let value = u64::from(self.price) + u64::from(freight) + u64::from(insurance);
        (value * u64::from(self.rate) / WHOLE_RATE) as u32
    }

    // The verdict on an act that names this entry.
    pub(crate) fn verdict_on(&self, act: EntryAct) -> EntryVerdict
        ensures { result ≡ known_verdict act self.now }
    {
        match act {
            EntryAct::Open { .. } => EntryVerdict::OpenedBefore,
            EntryAct::Freight(_) => self.verdict_on_amount(self.freight),
            EntryAct::Insurance(_) => self.verdict_on_amount(self.insurance),
            EntryAct::Close => self.verdict_on_closing(),
        }
    }

    // The verdict on an amount, of which the entry has what was given before.
    fn verdict_on_amount(&self, given: Option<u32>) -> EntryVerdict
        ensures { result ≡ amount_verdict self.now given }
    {
        if self.duty.is_some() {
            EntryVerdict::Closed
        } else if given.is_some() {
            EntryVerdict::GivenBefore
        } else {
            EntryVerdict::Taken
        }
    }

    // The verdict on closing the entry.
    fn verdict_on_closing(&self) -> EntryVerdict
        ensures { result ≡ closing_verdict self.now }
    {
        if self.duty.is_some() {
            EntryVerdict::Closed
        } else if self.freight.is_some() {
            EntryVerdict::Taken
        } else {
            EntryVerdict::NoFreight
        }
    }

    // The entry after an act that is taken.
    pub(crate) fn after(self, act: EntryAct) -> CustomsEntry
        requires ranged { in_range self ≡ true }
        requires lawful { lawful_act act ≡ true }
        ensures value { result ≡ entry_after act self }
        ensures ranged { in_range result ≡ true }
    {
        match act {
            EntryAct::Open { .. } => self,
            EntryAct::Freight(amount) => CustomsEntry {
                freight: Some(amount),
                ..self
            },
            EntryAct::Insurance(amount) => CustomsEntry {
                insurance: Some(amount),
                ..self
            },
            EntryAct::Close => CustomsEntry {
                duty: Some(self.duty_due()),
                ..self
            },
        }
    }
}
