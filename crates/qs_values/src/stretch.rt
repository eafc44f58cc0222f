use crate::list::List;

/// A number of ticks plus whole multiples of stretches.
#[derive(Debug, Drop)]
pub struct Affine {
    pub ticks: i64,
    pub parts: List<Part1>,
}

/// A whole multiple of a stretch.
#[derive(Clone, Copy, Debug, PartialEq, Eq)]
pub struct Part1 {
    pub stretch: u32,
    pub times: i64,
}

/// Equations that share stretches, and the numbers of these stretches.
#[derive(Debug, Drop)]
pub struct Group {
    pub unknowns: List<u32>,
    pub rows: List<Row>,
}

/// An equation: a coefficient for each unknown of its group, and the sum in ticks.
#[derive(Debug, Drop)]
pub struct Row {
    pub coefs: List<i64>,
    pub sum: i64,
}
