// What is counted. A count that is at u64::MAX stays there.

#[derive(Clone, Copy, Default)]
pub struct Tally {
    pub examples: u64,
    pub differing: u64,
}

impl Tally {
    // One example more.
    pub fn count(&mut self, as_expected: bool) {
        self.examples = self.examples.saturating_add(1);
        if !as_expected {
            self.differing = self.differing.saturating_add(1);
        }
    }
}
