ghost use Rattle.std.specs.Prelude.{◌≡◌};
ghost use Rattle.std.specs.List.{list_all};
ghost use Rattle.lexer.specs.Pieces.{blank, printable, uncommented};

/// Whether a byte stands between words.
pub(crate) fn is_blank(byte: u8) -> bool
    ensures value { result ≡ blank byte }
{
    matches!(byte, b' ' | b'\t' | b'\r')
}

/// Whether a line is text: printable ASCII and blanks.
pub fn is_text(line: &[u8]) -> bool
    ensures value { result ≡ list_all printable line.now }
{
    line.iter()
        .all(|byte| matches!(*byte, b' '..=b'~') || is_blank(*byte))
}

/// The line up to its first '#'.
pub fn without_comment(line: &[u8]) -> &[u8]
    ensures value { result.now ≡ uncommented line.now }
{
    let length = line.iter().take_while(|byte| **byte != b'#').count();
    &line[..length]
}
