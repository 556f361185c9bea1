// A request: its words, and what they stand for.
ghost use Rattle.std.specs.Prelude.{◌<◌, length, IfOk};
ghost use Rattle.std.specs.Iterator.{at_most};

use crate::failure::Failure;
use nodes::node::Node;
use std::alloc::Global;

// The words of a line, one space apart.
#[derive(Clone, Copy)]
struct Words<'a> {
    rest: &'a str,
}

impl<'a> Iterator for Words<'a> {
    type Item = &'a str;

    ghost remaining = { λ words. at_most (length words.rest.now) };

    fn next(&mut self) -> Option<&'a str> {
        let rest = self.rest;
        if rest.is_empty() {
            return None;
        }
        let (word, others) = rest.split_once(' ').unwrap_or((rest, ""));
        self.rest = others;
        Some(word)
    }
}

// A request that is read word by word, and the answers so far.
#[derive(Drop)]
pub struct Request<'a> {
    pub heap: Global,
    words: Words<'a>,
    pub out: &'a mut String,
}

impl<'a> Request<'a> {
    pub fn new(heap: Global, line: &'a str, out: &'a mut String) -> Request<'a> {
        Request {
            heap,
            words: Words { rest: line },
            out,
        }
    }

    pub fn word(&mut self) -> Result<&'a str, Failure> {
        self.words.next().ok_or(Failure::Request)
    }

    pub fn number(&mut self) -> Result<usize, Failure> {
        Ok(self.word()?.parse::<usize>()?)
    }

    // Bytes in hexadecimal; `-` is none.
    pub fn bytes(&mut self) -> Result<Vec<u8>, Failure> {
        let mut all = Vec::new(self.heap);
        let word = self.word()?;
        if word != "-" {
            for pair in word.as_bytes().chunks_exact(2) {
                if let [high, low] = pair {
                    all.push(16 * digit(*high)? + digit(*low)?)?;
                }
            }
        }
        Ok(all)
    }

    // Nodes with commas between them; `-` is none.
    pub fn nodes(&mut self) -> Result<Vec<Node>, Failure> {
        let mut all = Vec::new(self.heap);
        let word = self.word()?;
        if word != "-" {
            for part in word.split(',') {
                all.push(node(part)?)?;
            }
        }
        Ok(all)
    }

    // What `read` makes of each word that is left.
    pub fn rest<T: Drop, F: Fn(&str) -> Result<T, Failure> + Drop>(
        &self,
        read: F,
    ) -> Result<Vec<T>, Failure>
        requires { F.IsAlwaysCallable read }
    {
        let mut all = Vec::new(self.heap);
        for word in self.words {
            all.push(read(word)?)?;
        }
        Ok(all)
    }
}

// Stays: by hand, since requests have small letters alone, where the library takes large ones too.
fn digit(b: u8) -> Result<u8, Failure>
    ensures { IfOk result (λ digit. digit < 16) }
{
    match b {
        b'0'..=b'9' => Ok(b - b'0'),
        b'a'..=b'f' => Ok(b - b'a' + 10),
        _ => Err(Failure::Request),
    }
}

fn field(word: Option<&str>) -> Result<u16, Failure> {
    Ok(word.ok_or(Failure::Request)?.parse::<u16>()?)
}

// A node as KIND.A.B.C
fn node(word: &str) -> Result<Node, Failure> {
    let mut fields = word.split('.');
    let kind = field(fields.next())?;
    let a = field(fields.next())?;
    let b = field(fields.next())?;
    let c = field(fields.next())?;
    Ok(Node {
        kind: u8::try_from(kind)?,
        a,
        b,
        c,
    })
}
