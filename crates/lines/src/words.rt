// Words that stand for a value.
ghost use Rattle.lines.specs.Spelled.{bell_word, edition_word};
ghost use Rattle.house.specs.declared.phases.Bell.TheVariants.{Open};
ghost use Rattle.rows.specs.declared.places.Edition.TheVariants.{Morning};
ghost use Rattle.std.proofs.Common.{rules};

use crate::values::FromField;
use house::phases::Bell;
use rows::places::Edition;

impl FromField for Bell {
    ghost spelt = { bell_word };

    ghost lawful = { λ _. Unit {0} };

    ghost sample = { Open };

    ghost sampled = { Prim.search rules };

    fn from_field(field: &[u8]) -> Option<Bell> {
        match field {
            b"open" => Some(Bell::Open),
            b"close" => Some(Bell::Close),
            _ => None,
        }
    }
}

impl FromField for Edition {
    ghost spelt = { edition_word };

    ghost lawful = { λ _. Unit {0} };

    ghost sample = { Morning };

    ghost sampled = { Prim.search rules };

    fn from_field(field: &[u8]) -> Option<Edition> {
        match field {
            b"close" => Some(Edition::Close),
            b"morning" => Some(Edition::Morning),
            _ => None,
        }
    }
}
