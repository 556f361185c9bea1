// The options of play.
ghost use Rattle.std.specs.Prelude.{◌≤◌, ◌<◌, length, IfOk};

use crate::failure::Failure;
use anyhow::Context;

// How a sheet is to be played.
#[derive(Clone, Copy)]
pub struct Options {
    // The most beats.
    pub beats: u64,
    // The portions that they are granted in, where it is said; each is then shown.
    pub grant: Option<u16>,
    // Whether each beat is shown with what it changed.
    pub trace: bool,
    // So much room on a packed shelf, where it is said.
    pub room: Option<usize>,
    // The file is a card, whatever its name.
    pub card: bool,
}

const PLAIN: Options = Options {
    beats: 1000000,
    grant: None,
    trace: false,
    room: None,
    card: false,
};

// What was asked of play: options, a script of calls or none, and the file.
#[derive(Drop)]
pub struct Asked<'a> {
    pub options: Options,
    pub calls: Option<&'a str>,
    pub file: Option<&'a str>,
}

// The number that comes next, and the words behind it.
fn number(words: &[String]) -> Result<(u64, &[String]), Failure>
    ensures { IfOk result (λ r. length r.1.now ≤ length words.now) }
{
    let wanted = "pico: an option wants a number behind it";
    let (word, rest) = words.split_first().context(wanted)?;
    let n = word.as_str().parse::<u64>().context(wanted)?;
    Ok((n, rest))
}

impl<'a> Asked<'a> {
    // Takes one word of the command, and what belongs to it of the words behind it; answers the others.
    fn take(&mut self, word: &'a String, rest: &'a [String]) -> Result<&'a [String], Failure>
        ensures { IfOk result (λ r. length r.now ≤ length rest.now) }
    {
        let options = &mut self.options;
        match word.as_str() {
            "--beats" => {
                let (n, rest) = number(rest)?;
                options.beats = n;
                Ok(rest)
            }
            "--grant" => {
                let (n, rest) = number(rest)?;
                options.grant = Some(n.clamp(1, 65535) as u16);
                Ok(rest)
            }
            "--room" => {
                let (n, rest) = number(rest)?;
                options.room = Some(n.min(1048576) as usize);
                Ok(rest)
            }
            "--calls" => match rest {
                [text, rest @ ..] => {
                    self.calls = Some(text.as_str());
                    Ok(rest)
                }
                [] => Ok(rest),
            },
            "--trace" => {
                options.trace = true;
                Ok(rest)
            }
            "--card" => {
                options.card = true;
                Ok(rest)
            }
            file => {
                self.file = Some(file);
                Ok(rest)
            }
        }
    }
}

pub fn parse<'a>(args: &'a [String]) -> Result<Asked<'a>, Failure> {
    let mut asked = Asked {
        options: PLAIN,
        calls: None,
        file: None,
    };
    let mut words = args;
    while let Some((word, rest)) = words.split_first() {
        words = asked.take(word, rest)?;
    }
    Ok(asked)
}
