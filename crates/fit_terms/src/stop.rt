// Why an expression isn't made of gates.
use sg_text::NoMemory;
use std::alloc::{AllocError, AllocFailed};

/// What ends a statement's work: it holds what no gates are made of, or there is no memory.
#[derive(Clone, Copy)]
pub enum Stop {
    Other,
    NoMemory,
}

impl From<AllocError> for Stop {
    fn from(_: AllocError) -> Self {
        Stop::NoMemory
    }
}

impl<T: Drop> From<AllocFailed<T>> for Stop {
    fn from(_: AllocFailed<T>) -> Self {
        Stop::NoMemory
    }
}

impl From<NoMemory> for Stop {
    fn from(_: NoMemory) -> Self {
        Stop::NoMemory
    }
}
