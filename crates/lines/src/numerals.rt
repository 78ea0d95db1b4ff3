// Numbers as digits.
#![tactic(auto, using(crate::proofs::Numbers::numerals))]

ghost use Rattle.std.specs.Prelude.{◌≤◌, length};
ghost use Rattle.lines.specs.Values.{Numbered, Valued};

use crate::classes::{ByteClass, class_of};

const MOST_DIGITS: usize = 10;

// The value of the digits, if all are digits.
fn value_of(digits: &[u8]) -> Option<u64>
    requires { length digits.now ≤ 10 }
    ensures { Valued digits.now result }
{
    // A loop, since it ends early and each byte is first told by its class: a `try_fold` would be no plainer.
    let mut n = 0;
    for byte in digits {
        let ByteClass::Digit(d) = class_of(*byte) else {
            return None;
        };
        n = n * 10 + u64::from(d);
    }
    Some(n)
}

/// The number that the bytes are the digits of: one to ten digits, with no zero before other digits. Other bytes are `None`.
pub fn number(digits: &[u8]) -> Option<u64>
    ensures { Numbered digits.now result }
{
    match digits {
        [] => None,
        [b'0', _, ..] => None,
        _ => {
            if digits.len() > MOST_DIGITS {
                return None;
            }
            value_of(digits)
        }
    }
}
