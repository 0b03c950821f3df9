/// This many words of a region, from this index on, counted from 0.
#[derive(Clone, Copy)]
pub struct Span {
    pub start: u32,
    pub len: u32,
}
