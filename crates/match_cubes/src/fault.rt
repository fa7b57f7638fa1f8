//! Why a match has no list of cubes.
use thiserror::Error;

/// Why `cubes` gives no list.
#[derive(Clone, Copy, PartialEq, Eq, Debug, Error)]
pub enum CubeFault {
    /// The match is wider than 65,536: this wide, or of the greatest width where it is wider.
    #[error("the match is {0} wide")]
    TooWide(u128),
    /// Memory was wanted and not found.
    #[error("out of memory")]
    Memory,
}
