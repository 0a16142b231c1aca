// What is counted. A count that is at u64::MAX stays there.

// The counts of one member, of the examples, or of all.
#[derive(Clone, Copy, Default)]
pub struct Count {
    pub rows: u64,
    // the rows whose default the text has lost
    pub lost: u64,
    // the rows whose address is writable
    pub writable: u64,
    // the addresses in no row
    pub unlisted: u64,
    // those of them that carry a dot
    pub carried: u64,
    pub comparisons: u64,
    pub disagreements: u64,
}

#[derive(Clone, Copy, Default)]
pub struct Tally {
    pub members: [Count; 5],
    pub lines: u64,
    // the lines that do not parse
    pub broken: u64,
}

impl Count {
    pub fn compared(&mut self, agrees: bool) {
        self.comparisons = self.comparisons.saturating_add(1);
        self.disagreements = self.disagreements.saturating_add(u64::from(!agrees));
    }

    pub fn listed(&mut self, writable: bool, lost: bool) {
        self.rows = self.rows.saturating_add(1);
        self.lost = self.lost.saturating_add(u64::from(lost));
        self.writable = self.writable.saturating_add(u64::from(writable));
    }

    pub fn unlisted(&mut self, carried: bool) {
        self.unlisted = self.unlisted.saturating_add(1);
        self.carried = self.carried.saturating_add(u64::from(carried));
    }

    pub fn add(&mut self, other: Count) {
        self.rows = self.rows.saturating_add(other.rows);
        self.lost = self.lost.saturating_add(other.lost);
        self.writable = self.writable.saturating_add(other.writable);
        self.unlisted = self.unlisted.saturating_add(other.unlisted);
        self.carried = self.carried.saturating_add(other.carried);
        self.comparisons = self.comparisons.saturating_add(other.comparisons);
        self.disagreements = self.disagreements.saturating_add(other.disagreements);
    }
}
