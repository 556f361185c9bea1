// What the commands show at once.
use crate::failure::Failure;
use std::alloc::AllocError;
use std::io::Write;

// Prints a text in one write, so that whoever reads only its beginning from a pipe does not make the command fail.
pub fn print(rt: &HostRuntime, text: &String) -> Result<(), Failure> {
    rt.stdout().write_all(text.as_bytes())?;
    Ok(())
}

// Tells a person in one write, which ends the command.
pub fn tell(rt: &HostRuntime, message: Result<String, AllocError>) -> Failure {
    match message {
        Ok(text) => {
            let _ = rt.stderr().write_all(text.as_bytes());
            Failure::Shown
        }
        Err(error) => Failure::from(error),
    }
}
