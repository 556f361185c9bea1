// pico: reads, checks, packs and plays sheets from the command line.
#![tactic(auto)]

mod cards;
mod failure;
mod fault;
mod help;
mod input;
mod listing;
mod loaded;
mod options;
mod output;
mod place;
mod play;
mod script;
mod tokens;
mod tree;

use crate::failure::Failure;
use std::env;
use std::process::ExitCode;
use std::rt::Env;

fn told(message: &'static str) -> Result<(), Failure> {
    Err(Failure::Told(anyhow::Error::msg(message)))
}

fn words(rt: &HostRuntime, args: &[String]) -> Result<(), Failure> {
    match args {
        [flag, file] if flag.as_str() == "--count" => listing::count(rt, file.as_str()),
        [file] => listing::list(rt, file.as_str()),
        [_, _] => told("pico: words takes a file, and --count before it"),
        _ => told("pico: words takes a file"),
    }
}

fn read(rt: &HostRuntime, args: &[String]) -> Result<(), Failure> {
    match args {
        [file] => tree::show(rt, file.as_str()),
        _ => told("pico: read takes a file"),
    }
}

fn check(rt: &HostRuntime, args: &[String]) -> Result<(), Failure> {
    match args {
        [flag, file] => cards::check(rt, file.as_str(), flag.as_str() == "--card"),
        [file] => cards::check(rt, file.as_str(), false),
        _ => told("pico: check takes a file, and --card before it if it is a card"),
    }
}

fn pack(rt: &HostRuntime, args: &[String]) -> Result<(), Failure> {
    match args {
        [sheet, card] => cards::pack_file(rt, sheet.as_str(), card.as_str()),
        _ => told("pico: pack takes a sheet and the card to write"),
    }
}

fn show(rt: &HostRuntime, args: &[String]) -> Result<(), Failure> {
    match args {
        [card] => cards::show(rt, card.as_str()),
        _ => told("pico: show takes a card"),
    }
}

fn play_sheet(rt: &HostRuntime, args: &[String]) -> Result<(), Failure> {
    let asked = options::parse(args)?;
    match (asked.file, asked.calls) {
        (Some(file), Some(text)) => script::play(rt, file, text, asked.options.card),
        (Some(file), None) => play::play(rt, file, asked.options),
        _ => told("pico: play takes a file"),
    }
}

// What is said of a command, or else of all of them.
fn say(rt: &HostRuntime, args: &[String]) -> Result<(), Failure> {
    let about = args
        .first()
        .and_then(|command| help::about(command.as_str()));
    rt.print(about.unwrap_or(help::USAGE))?;
    Ok(())
}

fn is_help(word: &String) -> bool {
    matches!(word.as_str(), "--help" | "-h")
}

// Stays: a match on the word, which is the table: a list of words and functions would say the same and be searched by hand.
fn run_command(rt: &HostRuntime, command: &str, rest: &[String]) -> Result<(), Failure> {
    match command {
        "words" => words(rt, rest),
        "read" => read(rt, rest),
        "check" => check(rt, rest),
        "pack" => pack(rt, rest),
        "show" => show(rt, rest),
        "play" => play_sheet(rt, rest),
        "help" | "--help" | "-h" => say(rt, rest),
        _ => told("pico: there is no such command; pico help lists them"),
    }
}

fn run(rt: &HostRuntime, args: &[String]) -> Result<(), Failure> {
    match args {
        [] => say(rt, args),
        [_, word] if is_help(word) => say(rt, args),
        [command, rest @ ..] => run_command(rt, command.as_str(), rest),
    }
}

fn split(rt: &HostRuntime, line: &str) -> Result<Vec<String>, Failure> {
    let mut words = Vec::new(rt.alloc());
    for word in line.split_whitespace() {
        words.push(String::from_str(rt.alloc(), word)?)?;
    }
    Ok(words)
}

// The commands of a file, one after another; a command that fails does not end the batch.
fn batch(rt: &HostRuntime, file: &str) -> Result<(), Failure> {
    let text = std::fs::read_to_string(rt, file)?;
    for line in text.as_str().lines() {
        println!(rt; "$ pico {line}")?;
        let words = split(rt, line)?;
        if let Err(failure) = run(rt, words.as_slice()) {
            failure.tell(rt);
            println!(rt; "refused")?;
        }
    }
    Ok(())
}

fn command(rt: &HostRuntime, args: &[String]) -> Result<(), Failure> {
    match args {
        [name, file] if name.as_str() == "batch" && !is_help(file) => batch(rt, file.as_str()),
        _ => run(rt, args),
    }
}

fn start(rt: &HostRuntime) -> Result<(), Failure> {
    let args: Vec<String> = env::args(rt)?.skip(1).collect(rt.alloc())?;
    command(rt, args.as_slice())
}

fn main(rt: HostRuntime) -> ExitCode {
    match start(&rt) {
        Ok(()) => ExitCode::SUCCESS,
        Err(failure) => {
            failure.tell(&rt);
            ExitCode::FAILURE
        }
    }
}
