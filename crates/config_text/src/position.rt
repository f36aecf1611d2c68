//! Lines and columns of a text.
ghost use Rattle.std.specs.Prelude.{◌≡◌, ◌+◌, ◌<◌, length};
ghost use Rattle.config_text.specs.Positions.{column_after, continues, line_after, next_column};

/// Whether the byte goes on with a character, in UTF-8.
fn continues(byte: u8) -> bool
    ensures { result ≡ continues byte }
{
    (0x80..=0xbf).contains(&byte)
}

/// The column after one more byte.
fn next_column(column: usize, byte: u8) -> usize
    requires { column + 1 < 18446744073709551616 }
    ensures { result ≡ next_column column byte }
{
    if byte == b'\n' {
        return 1;
    }
    if continues(byte) { column } else { column + 1 }
}

/// The line that goes on after these bytes; the first is 1.
pub(crate) fn line_after(before: &[u8]) -> usize
    ensures { result ≡ line_after before.now }
{
    1 + before.iter().filter(|byte| **byte == b'\n').count()
}

/// The column after these bytes: 1 at the start of a line, and one more for each character.
pub(crate) fn column_after(before: &[u8]) -> usize
    ensures { result ≡ column_after before.now }
{
    let mut column = 1;
    for byte in before {
        column = next_column(column, *byte);
    }
    column
}
