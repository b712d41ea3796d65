// Cross-tables, run.
use crosstab::{
    Card, ChargeSlip, Charges, PeriodCard, column_totals, cross_table, row_totals, whole,
};
use refusals::Refusal;

const LARGEST: u64 = 18_446_744_073_709_551_615;

fn periods(peak: u64, half_peak: u64, saturday_half_peak: u64, off_peak: u64) -> PeriodCard {
    PeriodCard {
        peak,
        half_peak,
        saturday_half_peak,
        off_peak,
    }
}

fn slip(transmission: u64, distribution: u64, ancillary_service: u64, dispatch: u64) -> ChargeSlip {
    ChargeSlip::of(Charges {
        transmission,
        distribution,
        ancillary_service,
        dispatch,
    })
}

// Two rows of three cards.
fn table() -> [PeriodCard; 6] {
    [
        periods(1, 2, 3, 4),
        periods(10, 20, 30, 40),
        periods(100, 200, 300, 400),
        periods(5, 6, 7, 8),
        periods(50, 60, 70, 80),
        periods(500, 600, 700, 800),
    ]
}

#[test]
fn both_totals_and_the_whole_of_two_rows(rt: HostRuntime) {
    let mut by_rows = [PeriodCard::empty(); 2];
    let mut by_columns = [PeriodCard::empty(); 3];
    assert_eq!(rt;
        cross_table(&table(), 2, 3, &mut by_rows, &mut by_columns),
        Ok(periods(666, 888, 1_110, 1_332))
    );
    assert_eq!(rt;
        by_rows,
        [periods(111, 222, 333, 444), periods(555, 666, 777, 888)]
    );
    assert_eq!(rt;
        by_columns,
        [
            periods(6, 8, 10, 12),
            periods(60, 80, 100, 120),
            periods(600, 800, 1_000, 1_200),
        ]
    );
}

#[test]
fn the_same_cards_in_three_rows(rt: HostRuntime) {
    let mut by_rows = [PeriodCard::empty(); 3];
    let mut by_columns = [PeriodCard::empty(); 2];
    assert_eq!(rt; row_totals(&table(), 3, 2, &mut by_rows), Ok(()));
    assert_eq!(rt; column_totals(&table(), 3, 2, &mut by_columns), Ok(()));
    assert_eq!(rt;
        by_rows,
        [
            periods(11, 22, 33, 44),
            periods(105, 206, 307, 408),
            periods(550, 660, 770, 880),
        ]
    );
    assert_eq!(rt;
        by_columns,
        [periods(151, 262, 373, 484), periods(515, 626, 737, 848)]
    );
}

#[test]
fn sums_stop_at_the_largest_amount(rt: HostRuntime) {
    let cards = [
        periods(LARGEST, LARGEST - 1, 0, 7),
        periods(1, 1, 0, LARGEST),
    ];
    assert_eq!(rt;
        whole(&cards, 1, 2),
        Ok(periods(LARGEST, LARGEST, 0, LARGEST))
    );
}

#[test]
fn a_slip_is_marked_where_a_charge_is_above_zero(rt: HostRuntime) {
    let slips = [
        slip(0, 0, 0, 0),
        slip(0, 0, 3, 0),
        slip(0, 0, 0, 0),
        slip(9, 0, 0, 4),
    ];
    let mut by_rows = [ChargeSlip::empty(); 2];
    let mut by_columns = [slip(1, 1, 1, 1); 2];
    assert_eq!(rt;
        cross_table(&slips, 2, 2, &mut by_rows, &mut by_columns),
        Ok(slip(9, 0, 3, 4))
    );
    assert_eq!(rt; by_rows, [slip(0, 0, 3, 0), slip(9, 0, 0, 4)]);
    assert_eq!(rt; by_columns, [slip(0, 0, 0, 0), slip(9, 0, 3, 4)]);
    assert_eq!(rt;
        [by_columns[0].is_charged(), by_columns[1].is_charged()],
        [false, true]
    );
    assert_eq!(rt; by_columns[1].charges().ancillary_service, 3);
}

#[test]
fn a_refusal_leaves_both_buffers(rt: HostRuntime) {
    let mut two = [periods(1, 1, 1, 1); 2];
    let mut three = [periods(2, 2, 2, 2); 3];
    assert!(rt; cross_table(&table(), 2, 2, &mut two, &mut three) == Err(Refusal::UnlikeLengths));
    assert!(rt; cross_table(&table(), 3, 2, &mut two, &mut three) == Err(Refusal::UnlikeLengths));
    assert!(rt; row_totals(&table(), 2, 3, &mut three) == Err(Refusal::UnlikeLengths));
    assert!(rt; column_totals(&table(), 2, 3, &mut two) == Err(Refusal::UnlikeLengths));
    assert_eq!(rt; two, [periods(1, 1, 1, 1); 2]);
    assert_eq!(rt; three, [periods(2, 2, 2, 2); 3]);
}

// 4,294,967,296 rows of as many columns come to 2^64 cards, which 64 bits would take for none.
#[test]
fn more_than_two_to_the_64_cards_are_refused(rt: HostRuntime) {
    let none: [PeriodCard; 0] = [];
    assert!(rt; whole(&none, 4_294_967_296, 4_294_967_296) == Err(Refusal::UnlikeLengths));
    assert_eq!(rt; whole(&none, 4_294_967_296, 0), Ok(periods(0, 0, 0, 0)));
}
