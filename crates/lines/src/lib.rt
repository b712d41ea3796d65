// Text cut at a mark, and the decimal numbers of a line.
#![tactic(auto)]

ghost use Rattle.std.specs.Prelude.{◌≡◌, ℕ, ◌^◌, ◌<◌, List, length, IfSome, IfOk, Some, vec_items, decimal as spelled, position, ◌==◌};
ghost use Rattle.lines.specs.Cuts.{before, after};
ghost use Rattle.lines.specs.Decimals.{number_in, plain_start, digits_on, with_digit};
ghost use Rattle.lines.specs.Numbers.{numbers_in, Writes};
ghost use Rattle.std.specs.Option.{option_map};

use std::alloc::{AllocError, Global};

// Where the first `mark` stands.
fn position(text: &[u8], mark: u8) -> Option<usize>
    ensures { result ≡ position (λ b. b == mark) text.now }
{
    text.iter().position(|byte| *byte == mark)
}

/// The text before the first `mark`, and the text after it where there is one.
#[tactic(auto, using(crate::proofs::Cuts::cuts))]
pub fn cut(text: &[u8], mark: u8) -> (&[u8], Option<&[u8]>)
    ensures front { result.0.now ≡ before mark text.now }
    ensures rest { option_map (λ x. x.now) result.1 ≡ after mark text.now }
    ensures shorter { IfSome result.1 (λ left. length left.now < length text.now) }
{
    match position(text, mark) {
        Some(i) => (&text[..i], Some(&text[i + 1..])),
        None => (text, None),
    }
}

// Whether `text` is not empty and has no zero in front of another digit.
fn starts_plain(text: &[u8]) -> bool
    ensures { result ≡ plain_start text.now }
{
    !matches!(text, [] | [b'0', _, ..])
}

// `value` with one more digit at its end.
fn with_digit(value: u32, byte: u8) -> Option<u32>
    ensures { result ≡ with_digit value byte }
{
    let digit = char::from(byte).to_digit(10)?;
    value.checked_mul(10)?.checked_add(digit)
}

// The number that the digits of `text` write, 0 where it has none.
fn digits(text: &[u8]) -> Option<u32>
    ensures { result ≡ digits_on 0 text.now }
{
    let mut value = 0;
    for byte in text {
        value = with_digit(value, *byte)?;
    }
    Some(value)
}

/// The number that `text` writes in decimal digits: no sign, and no zero in front of another digit.
/// The answer is `n` just where `text` is what `{n}` writes.
pub fn decimal(text: &[u8]) -> Option<u32>
    ensures value { result ≡ number_in text.now }
    ensures writes { (n : ℕ) → (result ≡ Some n → (n < 2 ^ 32) × (text.now ≡ spelled n)) × (n < 2 ^ 32 → text.now ≡ spelled n → result ≡ Some n) }
{
    if starts_plain(text) {
        digits(text)
    } else {
        None
    }
}

// What stands between two numbers of a line.
fn is_blank(byte: &u8) -> bool
    ensures { result ≡ byte.now == 32 }
{
    *byte == b' '
}

/// The numbers of a line, one blank between two; None where a piece is no number.
/// The answer is `ns` just where `line` is how `ns` is written. `Err` is want of memory.
// No such line and want of memory are two things, and `?` serves the second.
pub fn numbers(heap: Global, line: &[u8]) -> Result<Option<Vec<u32>>, AllocError>
    ensures value { IfOk result (λ found. option_map vec_items found ≡ numbers_in line.now) }
    ensures writes { IfOk result (λ found. (ns : List ℕ) → (option_map vec_items found ≡ Some ns → Writes ns line.now) × (Writes ns line.now → option_map vec_items found ≡ Some ns)) }
{
    let mut found = Vec::new(heap);
    for piece in line.split(is_blank) {
        let Some(number) = decimal(piece) else {
            return Ok(None);
        };
        found.push(number)?;
    }
    Ok(Some(found))
}

#[cfg(test)]
mod tests {
    use super::*;
    use std::test::Fail;

    #[test]
    fn cuts_and_decimals(rt: HostRuntime) -> Result<(), Fail> {
        let (front, rest) = cut(b"10 20", b' ');
        assert!(rt; front == b"10".as_slice());
        assert!(rt; rest.ok_or("no rest")? == b"20".as_slice());
        assert!(rt; cut(b"10", b' ').1.is_none());
        assert_eq!(rt; decimal(b"0"), Some(0));
        assert_eq!(rt; decimal(b"4294967295"), Some(4_294_967_295));
        for text in ["", "007", "4294967296", "+1", "12a"] {
            assert!(rt; decimal(text.as_bytes()).is_none(), "{}", text);
        }
        Ok(())
    }

    #[test]
    fn lines_of_numbers(rt: HostRuntime) -> Result<(), Fail> {
        let found = numbers(rt.alloc(), b"10 1 1")?.ok_or("no numbers")?;
        assert!(rt; found.as_slice() == [10, 1, 1].as_slice());
        for line in ["10  1", " 1", "1 ", ""] {
            assert!(rt; numbers(rt.alloc(), line.as_bytes())?.is_none(), "{}", line);
        }
        Ok(())
    }
}
