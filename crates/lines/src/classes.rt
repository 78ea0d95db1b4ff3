// Bytes by what they are to a line.
ghost use Rattle.lines.specs.Values.{Classed};

/// What a byte is to a line.
#[derive(Clone, Copy, PartialEq, Eq)]
pub enum ByteClass {
    /// `0` to `9`, with the value of the digit.
    Digit(u8),
    /// The sign of a negative value or, alone, a missing value.
    Minus,
    /// The end of a field.
    Space,
    /// None of these: it stands in names and words only.
    Other,
}

/// The class of the byte.
pub fn class_of(byte: u8) -> ByteClass
    ensures { Classed byte result }
{
    // Digits first, and by a guard: they are the most of a line, and a range would be tried after the single bytes.
    match byte {
        digit if digit.is_ascii_digit() => ByteClass::Digit(digit - b'0'),
        b'-' => ByteClass::Minus,
        b' ' => ByteClass::Space,
        _ => ByteClass::Other,
    }
}
