// Bytes of a text: where a part ends.
ghost use Rattle.std.specs.Prelude.{◌≡◌, length};
ghost use Rattle.text.specs.Bytes.{before};

// The place of the first byte `end`; the text's length where there is none.
pub fn end_of(text: &[u8], end: u8) -> usize
    ensures { result ≡ length (before end text.now) }
{
    text.iter().position(|b| *b == end).unwrap_or(text.len())
}
