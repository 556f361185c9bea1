// Why drill cannot answer.
use std::alloc::{AllocError, AllocFailed};
use std::num::{ParseIntError, TryFromIntError};
use std::{fmt, io};

#[derive(Clone, Copy, PartialEq, Eq, Debug)]
pub enum Failure {
    // A line is no request.
    Request,
    Memory,
    Stream,
}

impl fmt::Display for Failure {
    fn fmt<W: fmt::Write>(&self, f: &mut fmt::Formatter<W>) -> fmt::Result {
        f.write_str(match self {
            Failure::Request => "a line is no request",
            Failure::Memory => "out of memory",
            Failure::Stream => "input or output failed",
        })
    }
}

impl From<ParseIntError> for Failure {
    fn from(_error: ParseIntError) -> Failure {
        Failure::Request
    }
}

impl From<TryFromIntError> for Failure {
    fn from(_error: TryFromIntError) -> Failure {
        Failure::Request
    }
}

impl From<io::Error> for Failure {
    fn from(_error: io::Error) -> Failure {
        Failure::Stream
    }
}

impl From<AllocError> for Failure {
    fn from(_error: AllocError) -> Failure {
        Failure::Memory
    }
}

impl<T: Drop> From<AllocFailed<T>> for Failure {
    fn from(_refused: AllocFailed<T>) -> Failure {
        Failure::Memory
    }
}
