// Lines that are no calls, or other calls: good lines, damaged.
use crate::chance::Chance;
use std::alloc::{AllocError, Global};

// Fields that are wrong in most places, or in some.
const FIELDS: [&str; 30] = [
    "-",
    "-0",
    "00",
    "01",
    "-01",
    "-00",
    "0",
    "1",
    "2",
    "-1",
    "+5",
    "--5",
    "5-",
    "",
    "9999999999",
    "-9999999999",
    "10000000000",
    "-10000000000",
    "12345678901",
    "00000000001",
    "9223372036854775808",
    "open",
    "close",
    "morning",
    "Close",
    "1.0",
    "0x1",
    "\0",
    "é",
    "settle",
];

const BYTES: [u8; 20] = [
    b' ', b'-', b'0', b'1', b'9', b'a', b'z', b'+', b'.', b'/', b':', b'_', b'\t', b'\r', 0, 1,
    127, 128, 195, 255,
];

const LONGEST: usize = 200;

fn byte(chance: &mut Chance) -> u8 {
    let index = chance.index(BYTES.len());
    BYTES.get(index).copied().unwrap_or(0)
}

// The line with a byte changed, dropped or added, or cut off.
fn bytewise(alloc: Global, chance: &mut Chance, line: &[u8]) -> Result<Vec<u8>, AllocError> {
    let at = chance.index(line.len());
    let way = chance.below(4);
    let mut damaged = Vec::new(alloc);
    for (index, old) in line.iter().enumerate() {
        match way {
            0 if index == at => damaged.push(byte(chance))?,
            1 if index == at => {}
            2 if index == at => {
                damaged.push(byte(chance))?;
                damaged.push(*old)?;
            }
            3 if index >= at => {}
            _ => damaged.push(*old)?,
        }
    }
    Ok(damaged)
}

// The line with a field replaced, lengthened by a zero in front, doubled, or with a space too many.
fn fieldwise(alloc: Global, chance: &mut Chance, line: &[u8]) -> Result<Vec<u8>, AllocError> {
    let spaces = line.iter().filter(|byte| **byte == b' ').count();
    let at = chance.index(spaces.saturating_add(1));
    let way = chance.below(8);
    let mut damaged = Vec::new(alloc);
    for (index, field) in line.split(|byte| *byte == b' ').enumerate() {
        if index > 0 {
            damaged.push(b' ')?;
        }
        if index == at {
            match way {
                0 => damaged.push(b'0')?,
                1 => damaged.push(b' ')?,
                2 => {
                    damaged.extend_from_slice(field)?;
                    damaged.push(b' ')?;
                }
                _ => {}
            }
        }
        if index == at && way > 2 {
            damaged.extend_from_slice(chance.word(&FIELDS).as_bytes())?;
        } else {
            damaged.extend_from_slice(field)?;
        }
    }
    Ok(damaged)
}

// The line drawn out to about the longest length.
fn lengthened(alloc: Global, chance: &mut Chance, line: &[u8]) -> Result<Vec<u8>, AllocError> {
    let byte = byte(chance);
    let more = chance.index(3);
    let mut damaged = Vec::from_slice(alloc, line)?;
    for _ in line.len()..LONGEST.saturating_sub(1).saturating_add(more) {
        damaged.push(byte)?;
    }
    Ok(damaged)
}

// The line with something behind it.
fn followed(alloc: Global, chance: &mut Chance, line: &[u8]) -> Result<Vec<u8>, AllocError> {
    let mut damaged = Vec::from_slice(alloc, line)?;
    damaged.push(b' ')?;
    damaged.extend_from_slice(chance.word(&FIELDS).as_bytes())?;
    Ok(damaged)
}

pub(crate) fn damaged(
    alloc: Global,
    chance: &mut Chance,
    line: &[u8],
) -> Result<Vec<u8>, AllocError> {
    match chance.below(10) {
        0 => lengthened(alloc, chance, line),
        1 | 2 => followed(alloc, chance, line),
        3..=5 => bytewise(alloc, chance, line),
        _ => fieldwise(alloc, chance, line),
    }
}
