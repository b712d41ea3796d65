// Cards joined one by one, and cards written one by one.
ghost use Rattle.std.specs.Prelude.{◌≡◌, ℕ, ◌<◌, length, slice_index_or};
ghost use Rattle.std.specs.Iterator.{IsFinite};
ghost use Rattle.std.specs.Iterator.Runs.{WholeRun};
ghost use Rattle.crosstab.specs.Cards.{joined_all};

use crate::Card;

// The cards joined.
pub(crate) fn joined<C: Card, I: Iterator<Item = C>>(cards: I) -> C
    requires can { I.can_next cards }
    requires ends { IsFinite (I.remaining cards) }
    ensures { WholeRun I.next_gives cards (λ p. result ≡ joined_all C.blank C.joined p.items) }
{
    cards.fold(C::empty(), |all, card| all.join(card))
}

// Writes to each place the card that `card_at` gives for it.
pub(crate) fn write_each<C: Card, F: Fn(usize) -> C>(places: &mut [C], card_at: F)
    requires { (i : ℕ) → i < length places.old → F.pre card_at i }
    ensures places { length places.new ≡ length places.old }
    ensures written { (i : ℕ) → i < length places.old → F.post card_at i (slice_index_or places.new i C.blank) }
{
    for (i, place) in places.iter_mut().enumerate() {
        *place = card_at(i);
    }
}
