// What is read from a file, or from the standard input.
use crate::failure::Failure;
use std::io::Read;
use std::{fs, io};

pub fn bytes(rt: &HostRuntime, file: &str) -> Result<Vec<u8>, Failure> {
    if file == "-" {
        let mut all = Vec::new(rt.alloc());
        rt.stdin().read_to_end(&mut all)?;
        return Ok(all);
    }
    fs::read(rt, file).map_err(|error| unreadable(rt, file, error))
}

// Tells that a file cannot be read.
fn unreadable(rt: &HostRuntime, file: &str, error: io::Error) -> Failure {
    let _ = eprintln!(rt; "pico: {file}: {error}");
    Failure::Shown
}
