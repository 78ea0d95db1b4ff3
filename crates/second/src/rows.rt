// The rows, written as the rules print them.

#[derive(Clone, Copy, PartialEq, Eq)]
pub(crate) enum Edition {
    Close,
    Morning,
}

// The row of a family, by its marks where they count.
pub(crate) fn row_of(
    family: i64,
    edition: Edition,
    last_day: bool,
    quarter_end: bool,
) -> &'static str {
    match edition {
        Edition::Close => match family {
            6 if quarter_end => "T D",
            11 if last_day => "V2 L1 B",
            13 if last_day => "V7 L1 B C",
            14 if quarter_end => "U",
            _ => close_row(family),
        },
        Edition::Morning => match family {
            14 if quarter_end => "U",
            _ => morning_row(family),
        },
    }
}

fn close_row(family: i64) -> &'static str {
    match family {
        1 => "A4 L1 T",
        2 => "S1 P",
        3 => "A4 Q4 L3 L2 T",
        4 | 8 => "C",
        5 => "A4 Q4 L4 T D",
        6 => "L5 T D",
        7 => "T D",
        9 => "T",
        10 => "A2 Q2 L1 D",
        11 => "L1 D",
        12 => "L1 B",
        13 => "V6 L1 B C",
        14 => "L5 U",
        _ => "U",
    }
}

fn morning_row(family: i64) -> &'static str {
    match family {
        1..=4 => "L8 D B",
        5 => "L9 D",
        6 | 7 => "L10 T D",
        8 => "C",
        9 => "T",
        10 => "Q12 L12 B",
        11 => "L11 D",
        12 => "L11 B",
        13 => "L12 B",
        14 => "L13 U",
        _ => "U",
    }
}
