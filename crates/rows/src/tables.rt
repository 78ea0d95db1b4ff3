// The rows of all families as one table of codes: four rows a family (close, last-day close, quarter-end close, morning),
// six places a row.
ghost use Rattle.std.specs.Prelude.{◌≡◌, ℕ, None, slice_index, slice_index_or};
ghost use Rattle.rows.specs.Codes.{at, code_at, decoded, steps, window_of};
ghost use Rattle.rows.specs.RowRules.{PlaceLawful, RowLawful};
ghost use Rattle.rows.specs.Rows.{row};

use crate::families::Family;
use crate::places::{Choice, Place};
use crate::steps::Step;

// The code of a step; one that looks in a window has the window's number added. Codes and not places: the rows are one constant
// table of codes, so that each stands on a line, as a clerk compares it.
const NONE: u8 = 0;

const A: u8 = 16;

const L: u8 = 32;

const Q: u8 = 48;

const V: u8 = 64;

const T: u8 = 80;

const U: u8 = 96;

const S: u8 = 112;

const P: u8 = 128;

const C: u8 = 144;

const B: u8 = 160;

const D: u8 = 176;

/// No row has more places.
pub const PLACES: usize = 6;

// From family 1 on, for each family its four rows, for each row six places.
static TABLE: [[[u8; PLACES]; 4]; 15] = [
    [
        [A + 4, L + 1, T, NONE, NONE, NONE],
        [A + 4, L + 1, T, NONE, NONE, NONE],
        [A + 4, L + 1, T, NONE, NONE, NONE],
        [L + 8, D, B, NONE, NONE, NONE],
    ],
    [
        [S + 1, P, NONE, NONE, NONE, NONE],
        [S + 1, P, NONE, NONE, NONE, NONE],
        [S + 1, P, NONE, NONE, NONE, NONE],
        [L + 8, D, B, NONE, NONE, NONE],
    ],
    [
        [A + 4, Q + 4, L + 3, L + 2, T, NONE],
        [A + 4, Q + 4, L + 3, L + 2, T, NONE],
        [A + 4, Q + 4, L + 3, L + 2, T, NONE],
        [L + 8, D, B, NONE, NONE, NONE],
    ],
    [
        [C, NONE, NONE, NONE, NONE, NONE],
        [C, NONE, NONE, NONE, NONE, NONE],
        [C, NONE, NONE, NONE, NONE, NONE],
        [L + 8, D, B, NONE, NONE, NONE],
    ],
    [
        [A + 4, Q + 4, L + 4, T, D, NONE],
        [A + 4, Q + 4, L + 4, T, D, NONE],
        [A + 4, Q + 4, L + 4, T, D, NONE],
        [L + 9, D, NONE, NONE, NONE, NONE],
    ],
    [
        [L + 5, T, D, NONE, NONE, NONE],
        [L + 5, T, D, NONE, NONE, NONE],
        [T, D, NONE, NONE, NONE, NONE],
        [L + 10, T, D, NONE, NONE, NONE],
    ],
    [
        [T, D, NONE, NONE, NONE, NONE],
        [T, D, NONE, NONE, NONE, NONE],
        [T, D, NONE, NONE, NONE, NONE],
        [L + 10, T, D, NONE, NONE, NONE],
    ],
    [
        [C, NONE, NONE, NONE, NONE, NONE],
        [C, NONE, NONE, NONE, NONE, NONE],
        [C, NONE, NONE, NONE, NONE, NONE],
        [C, NONE, NONE, NONE, NONE, NONE],
    ],
    [
        [T, NONE, NONE, NONE, NONE, NONE],
        [T, NONE, NONE, NONE, NONE, NONE],
        [T, NONE, NONE, NONE, NONE, NONE],
        [T, NONE, NONE, NONE, NONE, NONE],
    ],
    [
        [A + 2, Q + 2, L + 1, D, NONE, NONE],
        [A + 2, Q + 2, L + 1, D, NONE, NONE],
        [A + 2, Q + 2, L + 1, D, NONE, NONE],
        [Q + 12, L + 12, B, NONE, NONE, NONE],
    ],
    [
        [L + 1, D, NONE, NONE, NONE, NONE],
        [V + 2, L + 1, B, NONE, NONE, NONE],
        [L + 1, D, NONE, NONE, NONE, NONE],
        [L + 11, D, NONE, NONE, NONE, NONE],
    ],
    [
        [L + 1, B, NONE, NONE, NONE, NONE],
        [L + 1, B, NONE, NONE, NONE, NONE],
        [L + 1, B, NONE, NONE, NONE, NONE],
        [L + 11, B, NONE, NONE, NONE, NONE],
    ],
    [
        [V + 6, L + 1, B, C, NONE, NONE],
        [V + 7, L + 1, B, C, NONE, NONE],
        [V + 6, L + 1, B, C, NONE, NONE],
        [L + 12, B, NONE, NONE, NONE, NONE],
    ],
    [
        [L + 5, U, NONE, NONE, NONE, NONE],
        [L + 5, U, NONE, NONE, NONE, NONE],
        [U, NONE, NONE, NONE, NONE, NONE],
        [L + 13, U, NONE, NONE, NONE, NONE],
    ],
    [
        [U, NONE, NONE, NONE, NONE, NONE],
        [U, NONE, NONE, NONE, NONE, NONE],
        [U, NONE, NONE, NONE, NONE, NONE],
        [U, NONE, NONE, NONE, NONE, NONE],
    ],
];

// The codes of a row.
fn codes(family: Family, choice: Choice) -> [u8; PLACES]
    ensures { (k : ℕ) → slice_index result k ≡ code_at family choice k }
{
    let rows = TABLE[usize::from(family.number() - 1)];
    rows[choice as usize]
}

// The step of a number from 1 on. An Option and no TryFrom: 0 is no error, but the code of an empty place.
fn step_of(number: u8) -> Option<Step>
    ensures { result ≡ slice_index_or steps number None }
{
    match number {
        1 => Some(Step::Auction),
        2 => Some(Step::Trade),
        3 => Some(Step::Quote),
        4 => Some(Step::Average),
        5 => Some(Step::Theory),
        6 => Some(Step::TheoryUp),
        7 => Some(Step::Spread),
        8 => Some(Step::PreviousSpread),
        9 => Some(Step::Copy),
        10 => Some(Step::Previous),
        11 => Some(Step::Ruling),
        _ => None,
    }
}

fn window_of(number: u8) -> Option<u8>
    ensures { result ≡ window_of number }
{
    (number != 0).then_some(number)
}

// The place that a code stands for; nothing for an empty place.
fn decode(code: u8) -> Option<Place>
    ensures { result ≡ decoded code }
{
    Some(Place {
        step: step_of(code / 16)?,
        window: window_of(code % 16),
    })
}

/// The places of a row, with nothing past its end.
// An array, since nothing here allocates.
pub fn places(family: Family, choice: Choice) -> [Option<Place>; PLACES]
    ensures value { (k : ℕ) → slice_index_or result k None ≡ at (row family choice) k }
    ensures lawful { RowLawful (λ k. slice_index_or result k None) }
{
    codes(family, choice).map(decode)
}

/// The place of a row at a position from 0 on; nothing past its end.
pub fn place_at(family: Family, choice: Choice, position: usize) -> Option<Place>
    ensures value { result ≡ at (row family choice) position }
    ensures lawful { PlaceLawful (λ k. decoded (code_at family choice k)) position result }
{
    let code = *codes(family, choice).get(position)?;
    decode(code)
}
