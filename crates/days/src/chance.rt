// Chance that a seed determines wholly: SplitMix64.

#[derive(Drop)]
pub(crate) struct Chance {
    state: u64,
}

impl Chance {
    pub(crate) fn new(seed: u64) -> Chance {
        Chance { state: seed }
    }

    fn draw(&mut self) -> u64 {
        self.state = self.state.wrapping_add(0x9e37_79b9_7f4a_7c15);
        let first = (self.state ^ (self.state >> 30)).wrapping_mul(0xbf58_476d_1ce4_e5b9);
        let second = (first ^ (first >> 27)).wrapping_mul(0x94d0_49bb_1331_11eb);
        second ^ (second >> 31)
    }

    // One of so many numbers from 0; 0 if there are none.
    pub(crate) fn below(&mut self, count: u64) -> u64 {
        let drawn = self.draw();
        if count == 0 { 0 } else { drawn % count }
    }

    pub(crate) fn index(&mut self, len: usize) -> usize {
        self.below(len as u64) as usize
    }

    // Happens so many times in a hundred.
    pub(crate) fn percent(&mut self, times: u64) -> bool {
        self.below(100) < times
    }

    // From low to high, both included.
    pub(crate) fn between(&mut self, low: i64, high: i64) -> i64 {
        let count = high.abs_diff(low).saturating_add(1);
        low.wrapping_add_unsigned(self.below(count))
    }

    pub(crate) fn of(&mut self, numbers: &[i64]) -> i64 {
        let index = self.index(numbers.len());
        numbers.get(index).copied().unwrap_or(0)
    }

    pub(crate) fn word(&mut self, words: &[&'static str]) -> &'static str {
        let index = self.index(words.len());
        words.get(index).copied().unwrap_or("")
    }
}
