/// What a way down answers, and how many comparisons it took.
#[derive(Clone, Copy)]
pub(crate) struct Counted<T> {
    pub answer: T,
    pub comparisons: u32,
}
