ghost use Rattle.std.specs.Prelude.{◌+◌, ◌^◌, ◌<◌};

/// Rows that follow one another, in each of which an item weighs the same.
#[derive(Clone, Copy)]
pub struct RowRange {
    pub first: u32,
    pub count: u32,
    pub value: u64,
    pub ghost below: { first + count < 2 ^ 32 },
}
