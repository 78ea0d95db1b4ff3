// A line cut at its spaces.
use std::alloc::{AllocError, Global};
use std::str;

#[derive(Clone, Copy)]
pub(crate) struct Field<'a> {
    pub(crate) start: usize,
    pub(crate) text: &'a [u8],
}

pub(crate) fn fields_of<'a>(alloc: Global, line: &'a [u8]) -> Result<Vec<Field<'a>>, AllocError> {
    let mut fields = Vec::new(alloc);
    let mut start = 0usize;
    for text in line.split(|byte| *byte == b' ') {
        fields.push(Field { start, text })?;
        start = start.saturating_add(text.len()).saturating_add(1);
    }
    Ok(fields)
}

const LARGEST: i64 = 9_999_999_999;

// The number that a field is. It is one if it has at most ten digits and is what that number prints: so a zero in front of
// other digits, a minus before 0, a plus and a field without digits are none.
pub(crate) fn number_of(alloc: Global, field: &[u8]) -> Result<Option<i64>, AllocError> {
    let Ok(text) = str::from_utf8(field) else {
        return Ok(None);
    };
    let Ok(number) = text.parse::<i64>() else {
        return Ok(None);
    };
    let printed = format!(in alloc; "{number}")?;
    let right = printed.as_str() == text && (-LARGEST..=LARGEST).contains(&number);
    Ok(right.then_some(number))
}
