// The evidence of a day: the entries taken, all of them, in their order.
use crate::fractions::Fraction;

// So many lots at a price.
#[derive(Clone, Copy)]
pub(crate) struct Deal {
    pub(crate) price: i64,
    pub(crate) lots: i64,
}

#[derive(Clone, Copy)]
pub(crate) enum Kind {
    Trade(Deal),
    Auction(Deal),
    Leg(Deal),
    Spread { difference: i64 },
    Quote { bid: Option<i64>, ask: Option<i64> },
}

impl Kind {
    // The deal of what counts as a trade: an auction does, a leg does not.
    pub(crate) fn traded(self) -> Option<Deal> {
        match self {
            Kind::Trade(deal) | Kind::Auction(deal) => Some(deal),
            _ => None,
        }
    }

    pub(crate) fn difference(self) -> Option<i64> {
        match self {
            Kind::Spread { difference } => Some(difference),
            _ => None,
        }
    }

    // The middle of a quote that has both sides.
    pub(crate) fn middle(self) -> Option<Fraction> {
        match self {
            Kind::Quote {
                bid: Some(bid),
                ask: Some(ask),
            } => Some(Fraction {
                over: i128::from(bid) + i128::from(ask),
                under: 2,
            }),
            _ => None,
        }
    }
}

#[derive(Clone, Copy)]
pub(crate) struct Entry {
    pub(crate) series: i64,
    pub(crate) stamp: i64,
    pub(crate) kind: Kind,
}

// The stamps of a day.
#[derive(Clone, Copy)]
pub(crate) struct Record {
    pub(crate) night: i64,
    pub(crate) opening: i64,
    pub(crate) afternoon: i64,
    pub(crate) close: i64,
    pub(crate) cut: i64,
}

impl Record {
    pub(crate) fn is_lawful(self) -> bool {
        (0..=86_399).contains(&self.night)
            && (86_400..=172_799).contains(&self.opening)
            && self.opening <= self.afternoon
            && self.afternoon < self.close
            && self.close <= 172_799
            && self.opening < self.cut
            && self.cut < self.close
    }

    // Whether a window has the stamp.
    fn has(self, window: u8, stamp: i64) -> bool {
        let till_close = stamp <= self.close;
        let before_cut = stamp < self.cut;
        match window {
            1 => self.night <= stamp && till_close,
            2 => self.opening <= stamp && till_close,
            3 => 139_800 <= stamp && till_close,
            4 => self.afternoon <= stamp && till_close,
            5 => 142_200 <= stamp && till_close,
            6 => (135_900..=143_100).contains(&stamp),
            7 => (117_900..=143_100).contains(&stamp),
            8 => self.opening <= stamp && stamp <= 126_120,
            9 => self.night <= stamp && stamp <= 126_120,
            10 => (125_100..=126_000).contains(&stamp),
            11 => self.opening <= stamp && before_cut,
            12 => self.night <= stamp && before_cut,
            13 => 125_100 <= stamp && before_cut,
            _ => false,
        }
    }
}

// A series' entries of a window, looked for in those of the whole day.
#[derive(Clone, Copy)]
pub(crate) struct Evidence<'a> {
    pub(crate) entries: &'a [Entry],
    pub(crate) record: Record,
    pub(crate) series: i64,
    pub(crate) window: u8,
}

impl Evidence<'_> {
    fn has(&self, entry: &Entry) -> bool {
        entry.series == self.series && self.record.has(self.window, entry.stamp)
    }

    // The last of those entries that counts: that of the largest stamp, of equal stamps the later one.
    fn last<F: Fn(Kind) -> bool>(&self, counts: F) -> Option<Entry>
        requires { F.IsAlwaysCallable counts }
    {
        let mut last: Option<Entry> = None;
        for entry in self.entries.iter().filter(|entry| self.has(entry)) {
            if counts(entry.kind) {
                last = match last {
                    Some(later) if entry.stamp < later.stamp => last,
                    _ => Some(*entry),
                };
            }
        }
        last
    }

    // The entry whose stamp is the step's time, if the step looks at entries: the last of its kind in the window, for an average the last
    // trade.
    pub(crate) fn entry_of(&self, letter: char) -> Option<Entry> {
        match letter {
            'A' => self.last(|kind| matches!(kind, Kind::Auction(_))),
            'L' | 'V' => self.last(|kind| kind.traded().is_some()),
            'Q' => self.last(|kind| matches!(kind, Kind::Quote { .. })),
            'S' => self.last(|kind| matches!(kind, Kind::Spread { .. })),
            _ => None,
        }
    }

    // Money over lots; with no lots it is no number.
    pub(crate) fn average(&self) -> Fraction {
        let mut money = 0i128;
        let mut all = 0i128;
        for entry in self.entries.iter().filter(|entry| self.has(entry)) {
            if let Some(deal) = entry.kind.traded() {
                money = money.saturating_add(i128::from(deal.price) * i128::from(deal.lots));
                all = all.saturating_add(i128::from(deal.lots));
            }
        }
        Fraction {
            over: money,
            under: all,
        }
    }
}
