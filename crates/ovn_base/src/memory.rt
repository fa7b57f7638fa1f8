use std::alloc::{AllocError, AllocFailed};

/// Memory was wanted and not found.
#[derive(Clone, Copy, PartialEq, Eq, Debug)]
pub struct NoMemory;

impl From<AllocError> for NoMemory {
    fn from(_error: AllocError) -> Self {
        NoMemory
    }
}

impl<T: Drop> From<AllocFailed<T>> for NoMemory {
    fn from(_error: AllocFailed<T>) -> Self {
        NoMemory
    }
}

/// A source or a sink failed.
#[derive(Clone, Copy, PartialEq, Eq, Debug)]
pub struct Failed;
