// How the program fails.
use anyhow::anyhow;
use std::alloc::{AllocError, AllocFailed};
use std::io;

// Stays: no Option, since `Shown` says what None would not.
#[derive(Drop)]
pub enum Failure {
    // It was shown already, with its place.
    Shown,
    Told(anyhow::Error),
}

impl Failure {
    // Tells a person, as far as that was not done.
    pub fn tell(&self, rt: &HostRuntime) {
        if let Failure::Told(error) = self {
            let _ = eprintln!(rt; "{error}");
        }
    }
}

impl From<anyhow::Error> for Failure {
    fn from(error: anyhow::Error) -> Failure {
        Failure::Told(error)
    }
}

impl From<io::Error> for Failure {
    fn from(error: io::Error) -> Failure {
        Failure::Told(anyhow::Error::from(error))
    }
}

impl From<AllocError> for Failure {
    fn from(error: AllocError) -> Failure {
        Failure::Told(anyhow::Error::from(error))
    }
}

impl<T: Drop> From<AllocFailed<T>> for Failure {
    fn from(_refused: AllocFailed<T>) -> Failure {
        Failure::Told(anyhow!("pico: out of memory"))
    }
}
