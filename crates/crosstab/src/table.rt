// A table of cards that lie by rows, and the totals of its rows and columns.
ghost use Rattle.std.specs.Prelude.{◌≡◌, ◌*◌, ◌<◌, length, ◌==◌, is_ok, IfOk, IfErr, slice_index_or};
ghost use Rattle.refusals.specs.declared.Refusal.TheVariants.{UnlikeLengths};
ghost use Rattle.std.specs.Iterator.Runs.{EveryRun, IsChunksExactRun};
ghost use Rattle.std.specs.Slice.Iter.{chunks_exact_rest, chunks_exact_size, chunks_exact_steps};
ghost use Rattle.crosstab.specs.Cards.{joined_all};
ghost use Rattle.crosstab.specs.Tables.{row, column, totals_by_row, totals_by_column};

use crate::Card;
use crate::joining::{joined, write_each};
use refusals::Refusal;
use std::slice::ChunksExact;

// Cards that fill a table.
#[derive(Drop)]
pub(crate) struct Table<'a, C> {
    cards: &'a [C],
    rows: usize,
    columns: usize,
    ghost filled: { length cards.now ≡ rows * columns },
}

impl<'a, C: Card> Table<'a, C> {
    // The table of these cards. No number of cards fills one where rows × columns passes 64 bits.
    pub(crate) fn new(cards: &'a [C], rows: usize, columns: usize) -> Result<Table<'a, C>, Refusal>
        ensures fills { is_ok result ≡ (length cards.now == rows * columns) }
        ensures table { IfOk result (λ t. (t.cards.now ≡ cards.now) × (t.rows ≡ rows) × (t.columns ≡ columns)) }
        ensures refusal { IfErr result (λ e. e ≡ UnlikeLengths) }
    {
        if rows.checked_mul(columns) != Some(cards.len()) {
            return Err(Refusal::UnlikeLengths);
        }
        Ok(Table {
            cards,
            rows,
            columns,
        })
    }

    // All cards joined.
    pub(crate) fn whole(&self) -> C
        ensures { result ≡ joined_all C.blank C.joined self.now.cards.now }
    {
        joined(self.cards.iter().copied())
    }

    // Writes the totals of the rows and of the columns, and answers the whole.
    pub(crate) fn write_both_totals(&self, row_totals: &mut [C], column_totals: &mut [C]) -> C
        requires rows { length row_totals.old ≡ self.now.rows }
        requires columns { length column_totals.old ≡ self.now.columns }
        ensures whole { result ≡ joined_all C.blank C.joined self.now.cards.now }
        ensures row_totals { row_totals.new ≡ totals_by_row C.blank C.joined self.now.cards.now self.now.rows self.now.columns }
        ensures column_totals { column_totals.new ≡ totals_by_column C.blank C.joined self.now.cards.now self.now.rows self.now.columns }
    {
        self.write_row_totals(row_totals);
        self.write_column_totals(column_totals);
        self.whole()
    }

    // The cards of row `r` joined.
    #[tactic(auto, using(crate::proofs::Lines::row_by_range))]
    fn row_total(&self, r: usize) -> C
        requires { r < self.now.rows }
        ensures { result ≡ joined_all C.blank C.joined (row C.blank self.now.cards.now self.now.columns r) }
    {
        // A row lies from r × columns on, so it is a slice by its places.
        let start = r * self.columns;
        joined(self.cards[start..start + self.columns].iter().copied())
    }

    // The rows, one after another.
    fn each_row(&self) -> ChunksExact<'_, C>
        requires { 0 < self.now.columns }
        ensures cards { chunks_exact_rest result ≡ self.now.cards.now }
        ensures size { chunks_exact_size result ≡ self.now.columns }
        ensures runs { EveryRun (chunks_exact_steps {A = C}) (λ p. 0 < chunks_exact_size p.from → IsChunksExactRun p (chunks_exact_size p.from) (chunks_exact_rest p.from)) }
    {
        self.cards.chunks_exact(self.columns)
    }

    // The cards of column `c` joined.
    fn column_total(&self, c: usize) -> C
        requires { c < self.now.columns }
        ensures { result ≡ joined_all C.blank C.joined (column C.blank self.now.cards.now self.now.rows self.now.columns c) }
    {
        // A column has one card of each row, at its own place there.
        joined(self.each_row().map(|row| card_in(row, c)))
    }

    // Writes the total of each row.
    pub(crate) fn write_row_totals(&self, totals: &mut [C])
        requires { length totals.old ≡ self.now.rows }
        ensures { totals.new ≡ totals_by_row C.blank C.joined self.now.cards.now self.now.rows self.now.columns }
    {
        write_each(totals, |r| self.row_total(r));
    }

    // Writes the total of each column.
    pub(crate) fn write_column_totals(&self, totals: &mut [C])
        requires { length totals.old ≡ self.now.columns }
        ensures { totals.new ≡ totals_by_column C.blank C.joined self.now.cards.now self.now.rows self.now.columns }
    {
        write_each(totals, |c| self.column_total(c));
    }
}

// The card of column `c` in a row. A function of its own, so that an edit can turn the place alone.
fn card_in<C: Card>(row: &[C], c: usize) -> C
    requires { c < length row.now }
    ensures { result ≡ slice_index_or row.now c C.blank }
{
    row[c]
}
