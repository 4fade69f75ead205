//! Types that are read by hand.

/// A part of a hundred.
#[derive(Drop)]
pub struct Percent(pub u64);

/// A list of two whole numbers, the lower one first.
#[derive(Drop)]
pub struct Range {
    /// The first of the two.
    pub low: u64,
    /// The second.
    pub high: u64,
}

/// Such a part or such a range, as what comes is no list or is one.
#[derive(Drop)]
pub enum Figure {
    /// A part of a hundred.
    Percent(Percent),
    /// A list of two numbers.
    Range(Range),
}
