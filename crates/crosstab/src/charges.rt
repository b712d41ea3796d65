// The charges of a bill.

/// What is charged for each service.
#[derive(Clone, Copy, Default, PartialEq, Eq, Debug)]
pub struct Charges {
    pub transmission: u64,
    pub distribution: u64,
    pub ancillary_service: u64,
    pub dispatch: u64,
}
