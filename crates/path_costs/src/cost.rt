//! Shapes of paths, and what they cost.

/// The ways to a table's rows, by what an entry costs; a covering one never reads the table.
#[derive(Clone, Copy)]
pub enum Shape {
    TableScan,
    CoveringScan,
    PlainScan,
    Rowid,
    CoveringSeek,
    PlainSeek,
}

/// What an offer costs to run, and how many rows it is thought to give.
#[derive(Clone, Copy)]
pub struct Cost {
    pub run: i32,
    pub rows: i32,
}

/// What a path costs to run, and how many entries it looks at.
#[derive(Clone, Copy)]
pub struct Size {
    pub run: i32,
    pub entries: i32,
}
