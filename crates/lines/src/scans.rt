// Where a field ends.
ghost use Rattle.std.specs.Prelude.{◌≡◌, ◌-◌, ◌≤◌, ◌∷◌, length, take, drop};
ghost use Rattle.lines.specs.Fields.{fields, left_at};

use crate::classes::{ByteClass, class_of};

// The end of the field that begins at the start: the first space from there on, or else the line's end.
pub(crate) fn field_end(line: &[u8], start: usize) -> usize
    requires { start ≤ length line.now }
    ensures within { (start ≤ result) × (result ≤ length line.now) }
    ensures cut { fields (drop start line.now) ≡ take (result - start) (drop start line.now) ∷ left_at line.now result }
{
    let rest = &line[start..];
    let spaces = rest
        .iter()
        .position(|byte| class_of(*byte) == ByteClass::Space);
    start + spaces.unwrap_or(rest.len())
}
