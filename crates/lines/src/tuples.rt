// Values one after the other, to the end of the line.
ghost use Rattle.std.specs.Prelude.{ℕ, List, [], ◌∷◌};
ghost use Rattle.lines.specs.Reading.{ReadFrom};
ghost use Rattle.std.proofs.Common.{rules};

use crate::faults::NotRead;
use crate::readers::Reader;
use crate::values::FromField;

/// What can be read from all the fields that are left of a line. A trait beside `FromField`, since a list of values is written
/// in fields, and a value in bytes.
pub trait FromFields: Sized {
    // How the values are written, and which may be.
    ghost spelt: { Self → List (List ℕ) };

    ghost lawful: { Self → Type 0 };

    // Some value may be written.
    ghost sample: { Self };

    /// The values that all the fields left are the writing of; or else where these fields depart from every such writing.
    fn from_fields(reader: &mut Reader<'_>) -> Result<Self, NotRead>
        ensures { ReadFrom spelt lawful reader.old result };

    ghost sampled: { lawful sample };
}

impl FromFields for () {
    ghost spelt = { λ _. [] };

    ghost lawful = { λ _. Unit {0} };

    ghost sample = { tt };

    ghost sampled = { Prim.search rules };

    fn from_fields(reader: &mut Reader<'_>) -> Result<(), NotRead> {
        reader.expect_end()
    }
}

impl<T: FromField + Drop, R: FromFields> FromFields for (T, R) {
    ghost spelt = { λ v. T.FromField.spelt v.0 ∷ R.FromFields.spelt v.1 };

    ghost lawful = { λ v. T.FromField.lawful v.0 × R.FromFields.lawful v.1 };

    ghost sample = { (T.FromField.sample, R.FromFields.sample) };

    ghost sampled = { Prim.search rules };

    fn from_fields(reader: &mut Reader<'_>) -> Result<(T, R), NotRead> {
        let field = reader.next_field()?;
        let Some(first) = T::from_field(field.bytes) else {
            return Err(field.refusal());
        };
        let rest = R::from_fields(reader)?;
        Ok((first, rest))
    }
}
