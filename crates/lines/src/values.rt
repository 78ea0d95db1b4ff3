// Values, each in one field.
#![tactic(auto, using(crate::proofs::Numbers::flattened))]

ghost use Rattle.std.specs.Prelude.{ℕ, false, List, pos, None};
ghost use Rattle.std.specs.Fmt.{signed_decimal};
ghost use Rattle.lines.specs.Values.{Brief, BriefIf, FieldBy, mark, signed_if};
ghost use Rattle.std.proofs.Common.{rules};

use crate::classes::{ByteClass, class_of};
use crate::numerals::number;

/// What can be read from one field. A trait of its own, since `TryFrom` of bytes could not be implemented here for numbers and
/// marks, and since it also says how a value is written: reading is proved the inverse of that.
pub trait FromField: Sized {
    // How a value is written, and which values may be.
    ghost spelt: { Self → List ℕ };

    ghost lawful: { Self → Type 0 };

    // Some value may be written.
    ghost sample: { Self };

    /// The value that the field is the writing of, or `None` where it is the writing of no value.
    fn from_field(field: &[u8]) -> Option<Self>
        ensures { FieldBy spelt lawful field.now result };

    ghost sampled: { lawful sample };
}

// The number that the field is the writing of, or `Some(None)` where it is a minus alone: a number is missing there. `None` is
// for a field that is neither.
fn number_or_missing(field: &[u8]) -> Option<Option<i64>>
    ensures { FieldBy signed_if BriefIf field.now result }
{
    let (first, rest) = field.split_first()?;
    match (class_of(*first), rest) {
        (ByteClass::Digit(_), _) => Some(Some(number(field)? as i64)),
        (ByteClass::Minus, []) => Some(None),
        (ByteClass::Minus, digits) => match number(digits)? {
            0 => None,
            n => Some(Some(-(n as i64))),
        },
        _ => None,
    }
}

impl FromField for i64 {
    ghost spelt = { signed_decimal };

    ghost lawful = { Brief };

    ghost sample = { pos 0 };

    ghost sampled = { Prim.search rules };

    // A minus alone is no number.
    fn from_field(field: &[u8]) -> Option<i64> {
        number_or_missing(field).flatten()
    }
}

impl FromField for Option<i64> {
    ghost spelt = { signed_if };

    ghost lawful = { BriefIf };

    ghost sample = { None };

    ghost sampled = { Prim.search rules };

    fn from_field(field: &[u8]) -> Option<Option<i64>> {
        number_or_missing(field)
    }
}

impl FromField for bool {
    ghost spelt = { mark };

    ghost lawful = { λ _. Unit {0} };

    ghost sample = { false };

    ghost sampled = { Prim.search rules };

    fn from_field(field: &[u8]) -> Option<bool> {
        match field {
            [b'0'] => Some(false),
            [b'1'] => Some(true),
            _ => None,
        }
    }
}
