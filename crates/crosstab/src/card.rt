// What a kind of card is.
ghost use Rattle.std.specs.Prelude.{◌≡◌};
ghost use Rattle.crosstab.specs.Cards.{Laws};

/// A kind of card: what a place of a table holds.
pub trait Card: Copy {
    // The card that changes nothing.
    ghost blank: { Self };

    // What two cards come to together.
    ghost joined: { Self → Self → Self };

    /// The card that changes nothing.
    // A method of its own: `Default` cannot be derived where a card has a ghost field, and would say no more.
    fn empty() -> Self
        ensures answer { result ≡ blank };

    /// Both cards as one.
    fn join(self, other: Self) -> Self
        ensures answer { result ≡ joined self other };

    // What each kind must prove.
    ghost laws: { Laws blank joined };
}
