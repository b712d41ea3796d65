// Why a call is refused. One enum serves the whole product.
#![tactic(auto)]

ghost use Rattle.std.specs.Prelude.{◌≡◌, Some};
ghost use Rattle.refusals.specs.Numbers.{number_of, printed};

use std::error::Error;
use std::fmt;

/// A reason to refuse a call, with its number. The call then changes nothing.
#[derive(Clone, Copy, PartialEq, Eq, Debug)]
pub enum Refusal {
    /// The date does not exist, the year, the number of days or the calendar is outside its limits, or a bit of the map is past the days.
    NoSuchBillingPeriod = 7,
    /// The record has another length than its bit map tells.
    WrongRecordLength = 10,
    /// A generator's reading is above 999,999, or a load's above 78,125.
    ReadingTooLarge = 12,
    /// Two lists that go together differ in length, there are over 16 weights, or a table has not rows × columns cards.
    UnlikeLengths = 14,
    /// The amount, or the sum of the weights, is above 4,000,000,000.
    AmountTooLarge = 15,
    /// There is an amount, and no weight above 0 to share it over.
    NoWeight = 16,
    /// The buffer is too short for the record.
    BufferTooShort = 17,
    /// The text is no line of its format.
    NoSuchLine = 18,
}

impl Refusal {
    /// The number that is printed for the reason. Of several reasons the one with the smallest number decides.
    pub fn number(self) -> u8
        ensures { result ≡ number_of self }
    {
        self as u8
    }
}

impl fmt::Display for Refusal {
    ghost output = { λ refusal. Some (printed refusal) };

    fn fmt<W: fmt::Write>(&self, f: &mut fmt::Formatter<W>) -> fmt::Result {
        let number = self.number();
        write!(f, "refusal {number}")
    }
}

impl Error for Refusal {}
