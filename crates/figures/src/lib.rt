// The worked figures of the product: one theorem about its definitions, and tests that run its code on the same figures.
#![tactic(auto)]

ghost use Rattle.figures.specs.Figures.{Figures};
ghost use Rattle.figures.specs.Periods.{PeriodFigures};
ghost use Rattle.figures.specs.QuarterRecords.{RecordFigures};
ghost use Rattle.figures.specs.Tables.{TableFigures};

#[cfg(test)]
mod periods;
#[cfg(test)]
mod quarter_records;
#[cfg(test)]
mod shares;
#[cfg(test)]
mod tables;

/// Holds the worked figures as a theorem.
pub fn worked_figures()
    ensures shares { Figures }
    ensures periods { PeriodFigures }
    ensures quarter_records { RecordFigures }
    ensures tables { TableFigures }
{
    share_figures();
    period_figures();
    record_figures();
    table_figures();
}

fn share_figures()
    ensures { Figures }
{}

fn period_figures()
    ensures { PeriodFigures }
{}

fn record_figures()
    ensures { RecordFigures }
{}

fn table_figures()
    ensures { TableFigures }
{}
