/// A line of a scene text, without the byte 10 that ends it.
#[derive(Clone, Copy, Debug, PartialEq, Eq)]
pub struct Line<'a> {
    /// Its number, counted from 1.
    pub number: usize,
    /// Where it begins in the text, counted from 0.
    pub place: usize,
    pub bytes: &'a [u8],
}
