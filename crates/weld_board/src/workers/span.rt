//! What neighbouring jobs have made.

/// The part that the jobs from `first` up to, not including, `next` have made.
#[derive(Drop)]
pub struct Span<P> {
    pub first: u64,
    pub next: u64,
    pub part: P,
}
