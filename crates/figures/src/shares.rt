// Divisions by the two sharing rules, run.
use refusals::Refusal;
use sharing::{LeftOver, RunningTotal, SharingRule, divide};

// Amount, weights, shares by running total, shares by left-over.
const DIVISIONS: [(u32, [u32; 4], [u32; 4], [u32; 4]); 8] = [
    (10, [1, 1, 1, 0], [3, 3, 4, 0], [4, 3, 3, 0]),
    (
        1_001,
        [3_333, 6_667, 0, 0],
        [333, 668, 0, 0],
        [334, 667, 0, 0],
    ),
    (400, [500, 50, 0, 0], [363, 37, 0, 0], [364, 36, 0, 0]),
    (1, [1, 1, 0, 0], [0, 1, 0, 0], [1, 0, 0, 0]),
    (0, [0, 0, 0, 0], [0, 0, 0, 0], [0, 0, 0, 0]),
    (7, [0, 5, 0, 5], [0, 3, 0, 4], [0, 4, 0, 3]),
    (
        156_250,
        [2_500, 2_500, 2_500, 2_500],
        [39_062, 39_063, 39_062, 39_063],
        [39_063, 39_063, 39_062, 39_062],
    ),
    (
        4_000_000_000,
        [1_333_333_333, 1_333_333_333, 1_333_333_333, 1],
        [1_333_333_333, 1_333_333_333, 1_333_333_333, 1],
        [1_333_333_333, 1_333_333_333, 1_333_333_333, 1],
    ),
];

#[test]
fn both_rules_give_the_worked_shares(rt: HostRuntime) {
    for (amount, weights, running, left) in DIVISIONS {
        assert_eq!(rt; divide(&RunningTotal, amount, &weights), Ok(running));
        assert_eq!(rt; divide(&LeftOver, amount, &weights), Ok(left));
    }
}

#[test]
fn any_number_of_weights_is_divided_over(rt: HostRuntime) {
    assert_eq!(rt; divide(&RunningTotal, 10, &[1, 1, 1]), Ok([3, 3, 4]));
    assert_eq!(rt; divide(&LeftOver, 10, &[1, 1, 1]), Ok([4, 3, 3]));
    assert_eq!(rt; divide(&LeftOver, 1, &[1; 17]), Err(Refusal::UnlikeLengths));
}

#[test]
fn a_refusal_leaves_the_buffer(rt: HostRuntime) {
    let mut shares = [7; 2];
    assert!(rt; RunningTotal.split(1, &[1, 1, 1], &mut shares) == Err(Refusal::UnlikeLengths));
    assert!(rt;
        LeftOver.split(4_000_000_001, &[0, 0], &mut shares) == Err(Refusal::AmountTooLarge)
    );
    assert!(rt;
        LeftOver.split(1, &[2_000_000_000, 2_000_000_001], &mut shares)
            == Err(Refusal::AmountTooLarge)
    );
    assert!(rt; RunningTotal.split(1, &[0, 0], &mut shares) == Err(Refusal::NoWeight));
    assert!(rt; LeftOver.split(1, &[1; 17], &mut [0; 17]) == Err(Refusal::UnlikeLengths));
    assert_eq!(rt; shares, [7, 7]);
}
