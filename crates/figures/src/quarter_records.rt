// Quarter records, run.
use records::{METERS, meters_of, read_record, record_length, write_record};
use refusals::Refusal;

// Generator 0 has 1,000 units, loads 0 and 1 have 300 units each.
const EXAMPLE: [u8; 15] = [
    0x01, 0x03, 0x00, 0, 0, 0x03, 0xE8, 0, 0, 0x01, 0x2C, 0, 0, 0x01, 0x2C,
];

#[test]
fn the_example_is_written_and_read(rt: HostRuntime) {
    let mut readings = [None; METERS];
    readings[0] = Some(1_000);
    readings[8] = Some(300);
    readings[9] = Some(300);
    let mut buffer = [7; 16];
    assert!(rt; write_record(&readings, &mut buffer) == Ok(15));
    assert!(rt; buffer[..15] == EXAMPLE[..]);
    assert_eq!(rt; buffer[15], 7);
    let mut found = [Some(7); METERS];
    assert!(rt; read_record(&EXAMPLE, &mut found) == Ok(()));
    assert_eq!(rt; found, readings);
}

#[test]
fn all_missing_is_three_bytes(rt: HostRuntime) {
    let mut buffer = [7; 3];
    assert!(rt; write_record(&[None; METERS], &mut buffer) == Ok(3));
    assert_eq!(rt; buffer, [0, 0, 0]);
    let mut found = [Some(7); METERS];
    assert!(rt; read_record(&[0, 0, 0], &mut found) == Ok(()));
    assert_eq!(rt; found, [None; METERS]);
}

#[test]
fn lengths_and_meters(rt: HostRuntime) {
    assert_eq!(rt; record_length(&EXAMPLE), Some(15));
    assert_eq!(rt; record_length(&[0xFF, 0xFF, 0xFF]), Some(99));
    assert_eq!(rt; record_length(&[0xFF, 0xFF]), None);
    let mut marked = [false; METERS];
    marked[0] = true;
    marked[8] = true;
    marked[9] = true;
    assert!(rt; meters_of(&EXAMPLE) == Ok(marked));
    assert!(rt; meters_of(&EXAMPLE[..14]) == Err(Refusal::WrongRecordLength));
}

#[test]
fn a_refused_record_leaves_the_readings(rt: HostRuntime) {
    let mut found = [Some(7); METERS];
    assert!(rt; read_record(&[], &mut found) == Err(Refusal::WrongRecordLength));
    assert!(rt; read_record(&[0, 0, 0, 0], &mut found) == Err(Refusal::WrongRecordLength));
    assert!(rt; read_record(&EXAMPLE[..14], &mut found) == Err(Refusal::WrongRecordLength));
    // 1,000,000 is 0F 42 40, and 78,126 is 01 31 2E.
    let generator = [1, 0, 0, 0, 0x0F, 0x42, 0x40];
    assert!(rt; read_record(&generator, &mut found) == Err(Refusal::ReadingTooLarge));
    let load = [0, 0, 0x80, 0, 0x01, 0x31, 0x2E];
    assert!(rt; read_record(&load, &mut found) == Err(Refusal::ReadingTooLarge));
    assert_eq!(rt; found, [Some(7); METERS]);
}

#[test]
fn limits_of_readings(rt: HostRuntime) {
    let mut readings = [None; METERS];
    readings[7] = Some(999_999);
    readings[23] = Some(78_125);
    let mut buffer = [0; 11];
    assert!(rt; write_record(&readings, &mut buffer) == Ok(11));
    // 999,999 is 0F 42 3F, and 78,125 is 01 31 2D.
    assert_eq!(rt;
        buffer,
        [0x80, 0, 0x80, 0, 0x0F, 0x42, 0x3F, 0, 0x01, 0x31, 0x2D]
    );
    readings[7] = Some(1_000_000);
    assert!(rt; write_record(&readings, &mut [0; 11]) == Err(Refusal::ReadingTooLarge));
    readings[7] = None;
    readings[23] = Some(78_126);
    assert!(rt; write_record(&readings, &mut [0; 7]) == Err(Refusal::ReadingTooLarge));
}

#[test]
fn a_short_buffer_stays_as_it_was(rt: HostRuntime) {
    let mut readings = [None; METERS];
    readings[0] = Some(0);
    let mut buffer = [7; 6];
    assert!(rt; write_record(&readings, &mut buffer) == Err(Refusal::BufferTooShort));
    assert_eq!(rt; buffer, [7; 6]);
    // With two reasons the smaller number decides.
    readings[0] = Some(1_000_000);
    assert!(rt; write_record(&readings, &mut buffer) == Err(Refusal::ReadingTooLarge));
}
