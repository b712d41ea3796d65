// The calls: the row totals, the column totals and the whole of a table, and all three at once.
ghost use Rattle.std.specs.Prelude.{◌≡◌, length, is_ok, IfOk, if◌then◌else◌};
ghost use Rattle.refusals.specs.First.{first_met};
ghost use Rattle.crosstab.specs.Cards.{joined_all};
ghost use Rattle.crosstab.specs.Tables.{totals_by_row, totals_by_column, whole_reasons, row_reasons, column_reasons, cross_reasons, SameWhole};

use crate::Card;
use crate::table::Table;
use refusals::Refusal;

// The calls take cards, rows and columns apart, since it is theirs to refuse what is no table. Each names a definition of its own,
// so rows and columns have a call each; the text behind them is one.

/// Writes the total of each row of a table to `totals`, which stay as they are under a refusal.
pub fn row_totals<C: Card>(
    cards: &[C],
    rows: usize,
    columns: usize,
    totals: &mut [C],
) -> Result<(), Refusal>
    ensures answer { result ≡ first_met (row_reasons (length cards.now) rows columns (length totals.old)) tt }
    ensures buffer { totals.new ≡ (if is_ok result then totals_by_row C.blank C.joined cards.now rows columns else totals.old) }
{
    let table = Table::new(cards, rows, columns)?;
    if totals.len() != rows {
        return Err(Refusal::UnlikeLengths);
    }
    table.write_row_totals(totals);
    Ok(())
}

/// Writes the total of each column of a table to `totals`, which stay as they are under a refusal.
pub fn column_totals<C: Card>(
    cards: &[C],
    rows: usize,
    columns: usize,
    totals: &mut [C],
) -> Result<(), Refusal>
    ensures answer { result ≡ first_met (column_reasons (length cards.now) rows columns (length totals.old)) tt }
    ensures buffer { totals.new ≡ (if is_ok result then totals_by_column C.blank C.joined cards.now rows columns else totals.old) }
{
    let table = Table::new(cards, rows, columns)?;
    if totals.len() != columns {
        return Err(Refusal::UnlikeLengths);
    }
    table.write_column_totals(totals);
    Ok(())
}

/// All cards of a table joined.
pub fn whole<C: Card>(cards: &[C], rows: usize, columns: usize) -> Result<C, Refusal>
    ensures { result ≡ first_met (whole_reasons (length cards.now) rows columns) (joined_all C.blank C.joined cards.now) }
{
    Ok(Table::new(cards, rows, columns)?.whole())
}

/// Writes the totals of the rows and of the columns, and answers the whole. The totals of both join to it.
/// Under a refusal both buffers stay as they are.
pub fn cross_table<C: Card>(
    cards: &[C],
    rows: usize,
    columns: usize,
    row_totals: &mut [C],
    column_totals: &mut [C],
) -> Result<C, Refusal>
    ensures answer { result ≡ first_met (cross_reasons (length cards.now) rows columns (length row_totals.old) (length column_totals.old)) (joined_all C.blank C.joined cards.now) }
    ensures row_buffer { row_totals.new ≡ (if is_ok result then totals_by_row C.blank C.joined cards.now rows columns else row_totals.old) }
    ensures column_buffer { column_totals.new ≡ (if is_ok result then totals_by_column C.blank C.joined cards.now rows columns else column_totals.old) }
    ensures same_whole { IfOk result (SameWhole C.blank C.joined row_totals.new column_totals.new) }
{
    let table = Table::new(cards, rows, columns)?;
    if row_totals.len() != rows || column_totals.len() != columns {
        return Err(Refusal::UnlikeLengths);
    }
    Ok(table.write_both_totals(row_totals, column_totals))
}
