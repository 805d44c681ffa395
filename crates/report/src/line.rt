//! Writes a line of numbers.
ghost use Rattle.std.specs.Prelude.{◌≡◌, ◌+◌, ◌*◌, ◌++◌, length};
ghost use Rattle.columns.specs.Lines.{line as line_of, TenDigits};

/// Writes a line: its first byte, the values, the letters as numbers, and byte 10.
pub fn put_line(out: &mut [u8], first: u8, values: &[u64], letters: &[u8])
    requires ten_digits { TenDigits values.now }
    requires room { length out.old ≡ 2 + 11 * length values.now + 11 * length letters.now }
    ensures written { out.new ≡ line_of first (values.now ++ letters.now) }
{
    let letters = letters.iter().map(|letter| u64::from(*letter));
    columns::line::put_line(out, first, values.iter().copied().chain(letters));
}
