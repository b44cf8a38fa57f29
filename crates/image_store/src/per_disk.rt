//! What each of a mirror's two images has.

/// One value for each of a mirror's two images. The fields name the images: in a tuple of two values of one type a swapped pair
/// would go unnoticed.
#[derive(Drop)]
pub struct PerDisk<T> {
    /// The local image's, the primary's.
    pub local: T,
    /// The peer's.
    pub peer: T,
}
