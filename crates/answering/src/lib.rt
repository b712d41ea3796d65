// What a program does that reads its whole input and writes one text.
#![tactic(auto)]

ghost use Rattle.std.specs.Prelude.{◌≡◌, ℕ, List, length, IfOk, IfSome, OnOk, string_bytes, decimal};
ghost use Rattle.std.specs.Io.KnownBytes.{Appends, IsAtEnd};

use std::alloc::{AllocError, Global};
use std::io;
use std::io::{Read, Write};

/// A text for every input.
pub trait Answer {
    // The bytes of the text for each input.
    ghost text: { Self → List ℕ → List ℕ };

    /// The text for `input`. `Err` is want of memory.
    fn answer(&self, heap: Global, input: &[u8]) -> Result<String, AllocError>
        ensures { IfOk result (λ made. string_bytes made ≡ text self.now input.now) };
}

// How many bytes one write takes at most, as many as when a text is printed.
const PIECE: usize = 1024;

// Writes the bytes in pieces, since an output need not take them all in one write.
fn write_in_pieces<W: Write>(writer: &mut W, bytes: &[u8]) -> io::Result<()>
    ensures { OnOk result (Appends (W.contents writer.old) (W.contents writer.new) bytes.now) }
{
    for piece in bytes.chunks(PIECE) {
        writer.write_all(piece)?;
    }
    Ok(())
}

/// Reads the input to its end, writes the text for it and nothing else, and answers the text.
pub fn answer_all<A: Answer, R: Read, W: Write>(
    heap: Global,
    answer: &A,
    reader: &mut R,
    writer: &mut W,
) -> io::Result<String>
    ensures text { IfOk result (λ made. IfSome (R.remaining reader.old) (λ input. string_bytes made ≡ A.text answer.now input)) }
    ensures end { OnOk result (IsAtEnd (R.remaining reader.new)) }
    ensures written { OnOk result (IfSome (R.remaining reader.old) (λ input. Appends (W.contents writer.old) (W.contents writer.new) (A.text answer.now input))) }
{
    let mut input = Vec::new(heap);
    reader.read_to_end(&mut input)?;
    let text = answer.answer(heap, input.as_slice())?;
    write_in_pieces(writer, text.as_bytes())?;
    Ok(text)
}

#[cfg(test)]
mod tests {
    use super::*;
    use std::test::Fail;

    // How many bytes an input has.
    struct Length;

    impl Answer for Length {
        ghost text = { λ _ input. decimal (length input) };

        fn answer(&self, heap: Global, input: &[u8]) -> Result<String, AllocError> {
            input.len().to_string(heap)
        }
    }

    #[test]
    fn the_text_is_answered_and_written(rt: HostRuntime) -> Result<(), Fail> {
        let mut input = b"some input".as_slice();
        let mut written = Vec::new(rt.alloc());
        let text = answer_all(rt.alloc(), &Length, &mut input, &mut written)?;
        assert!(rt; text.as_str() == "10");
        assert!(rt; written.as_slice() == b"10".as_slice());
        Ok(())
    }
}
