// drill: answers conformance requests, one to a line of the standard input, one answer to a line of the standard output.
#![tactic(auto)]

mod cards;
mod decks;
mod failure;
mod plays;
mod request;
mod texts;
mod written;

use crate::failure::Failure;
use crate::request::Request;
use std::alloc::Global;
use std::io::{Read, Write};
use std::process::ExitCode;

// Answers a request.
// Stays: a match on the word, which is the table.
fn answer(request: &mut Request<'_>) -> Result<(), Failure> {
    match request.word()? {
        "read" => texts::read(request),
        "load" => decks::load(request),
        "pack" => cards::pack(request),
        "unpack" => cards::unpack(request),
        "judge" => cards::judge(request),
        "run" => plays::run(request),
        _ => Err(Failure::Request),
    }
}

fn answers(heap: Global, requests: &str) -> Result<String, Failure> {
    let mut out = String::new(heap);
    for line in requests.lines() {
        if !line.is_empty() && !line.starts_with('#') {
            answer(&mut Request::new(heap, line, &mut out))?;
            out.push('\n')?;
        }
    }
    Ok(out)
}

// Reads all requests, and writes all answers.
fn serve(rt: &HostRuntime) -> Result<(), Failure> {
    let heap = rt.alloc();
    let mut requests = String::new(heap);
    rt.stdin().read_to_string(&mut requests)?;
    let all = answers(heap, requests.as_str())?;
    rt.stdout().write_all(all.as_bytes())?;
    Ok(())
}

fn main(rt: HostRuntime) -> ExitCode {
    match serve(&rt) {
        Ok(()) => ExitCode::SUCCESS,
        Err(failure) => {
            let _ = eprintln!(rt; "drill: {failure}");
            ExitCode::FAILURE
        }
    }
}
