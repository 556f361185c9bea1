// The scanner: the word at a place, or its fault.
ghost use Rattle.std.specs.Prelude.{◌≡◌, ◌+◌, ◌-◌, ◌*◌, ◌<◌, ◌≤◌, min, true, length, IfOk, Ok, ◌==◌, slice_index};
ghost use Rattle.words.specs.Bytes.{alnum, digit};
ghost use Rattle.words.specs.Words.{told, meant, moves, Scans, Stands, keyword, named as named-as, largest, value, limited, name_at, number_at, text_at, word_at, after};

use crate::byte::{Class, run_end};
use crate::name::keyword_of;
use crate::word::{Fault, Fixed, Refusal, Token, Word};

// The longest text constant, in bytes.
pub const LONGEST: usize = 80;

// The largest number.
pub const LARGEST: u64 = 4294967295;

// A run of letters and digits: a keyword, or else a name.
fn named<'a>(spelling: &'a [u8], place: usize, next: usize, token: &mut Token<'a>)
    ensures is { meant token.new.word ≡ named-as spelling.now (keyword spelling.now) }
    ensures at { (token.new.place ≡ place) × (token.new.next ≡ next) × (moves (meant token.new.word) ≡ 1) }
{
    let word = match keyword_of(spelling) {
        Some(fixed) => Word::Fixed(fixed),
        None => Word::Name(spelling),
    };
    *token = Token { word, place, next };
}

fn name_at<'a>(text: &'a [u8], at: usize, token: &mut Token<'a>)
    requires { (at < length text.now) × (alnum (slice_index text.now at) ≡ true) }
    ensures is { told (Ok token.new) ≡ name_at text.now at }
    ensures on { Stands text.now at token.new }
{
    let next = run_end(text, Class::Alnum, at);
    named(&text[at..next], at, next, token)
}

// The number `v` with one digit more, where that is no larger than a number may be.
fn with_digit(v: u32, digit: u8) -> Option<u32>
    ensures { result ≡ limited (v * 10 + (digit - 48)) }
{
    let more = u64::from(v) * 10 + u64::from(digit.saturating_sub(b'0'));
    if more > LARGEST {
        return None;
    }
    Some(more as u32)
}

// The number that the digits spell, where it is no larger than a number may be.
fn value_of(digits: &[u8]) -> Option<u32>
    ensures { result ≡ limited (value 0 digits.now) }
{
    let mut v = 0;
    for d in digits {
        v = with_digit(v, *d)?;
    }
    Some(v)
}

fn number_at<'a>(text: &'a [u8], at: usize, token: &mut Token<'a>) -> Result<(), Fault>
    requires { (at < length text.now) × (digit (slice_index text.now at) ≡ true) }
    ensures { Scans text.now at (number_at text.now at) result token.old token.new }
{
    let next = run_end(text, Class::Digit, at);
    let digits = &text[at..next];
    match value_of(digits) {
        Some(value) => {
            *token = Token {
                word: Word::Number(digits, value),
                place: at,
                next,
            };
            Ok(())
        }
        None => Err(Fault {
            refusal: Refusal::LargeNumber,
            place: at,
        }),
    }
}

// The text constant whose opening quote stands at `at`.
fn text_at<'a>(text: &'a [u8], at: usize, token: &mut Token<'a>) -> Result<(), Fault>
    requires { at < length text.now }
    ensures { Scans text.now at (text_at text.now at) result token.old token.new }
{
    let end = run_end(text, Class::Allowed, at + 1);
    if end >= text.len() {
        return Err(Fault {
            refusal: Refusal::Unclosed,
            place: at,
        });
    }
    if text[end] as char != '"' {
        return Err(Fault {
            refusal: Refusal::NotAllowed,
            place: end,
        });
    }
    if end - (at + 1) > LONGEST {
        return Err(Fault {
            refusal: Refusal::LongText,
            place: at,
        });
    }
    *token = Token {
        word: Word::Text(&text[at + 1..end]),
        place: at,
        next: end + 1,
    };
    Ok(())
}

fn mark(fixed: Fixed, at: usize, next: usize, token: &mut Token<'_>) -> Result<(), Fault>
    ensures says { result ≡ Ok tt }
    ensures is { token.new ≡ record { word = Word.Fixed fixed; place = at; next = next } }
{
    *token = Token {
        word: Word::Fixed(fixed),
        place: at,
        next,
    };
    Ok(())
}

// Whether the byte `b`, not 0, stands after `at`.
fn next_is(text: &[u8], at: usize, b: u8) -> bool
    requires { (at < length text.now) × (0 < b) }
    ensures is { result ≡ (slice_index text.now (at + 1) == b) }
    ensures within { result ≡ true → at + 1 < length text.now }
{
    at + 1 < text.len() && text[at + 1] == b
}

// The word that begins right at `at`.
fn word_at<'a>(text: &'a [u8], at: usize, token: &mut Token<'a>) -> Result<(), Fault>
    requires { at ≤ length text.now }
    ensures { Scans text.now at (word_at text.now at) result token.old token.new }
{
    if at >= text.len() {
        *token = Token {
            word: Word::End,
            place: at,
            next: at,
        };
        return Ok(());
    }
    match text[at] as char {
        'a'..='z' | 'A'..='Z' => {
            name_at(text, at, token);
            Ok(())
        }
        '0'..='9' => number_at(text, at, token),
        '"' => text_at(text, at, token),
        '(' => mark(Fixed::Open, at, at + 1, token),
        ')' => mark(Fixed::Close, at, at + 1, token),
        '+' => mark(Fixed::Plus, at, at + 1, token),
        '-' => mark(Fixed::Minus, at, at + 1, token),
        ';' => mark(Fixed::Semicolon, at, at + 1, token),
        ',' => mark(Fixed::Comma, at, at + 1, token),
        '|' => {
            if next_is(text, at, b'|') {
                mark(Fixed::Join, at, at + 2, token)
            } else {
                Err(Fault {
                    refusal: Refusal::NoWord,
                    place: at,
                })
            }
        }
        ':' => {
            if next_is(text, at, b'=') {
                mark(Fixed::Becomes, at, at + 2, token)
            } else {
                mark(Fixed::Colon, at, at + 1, token)
            }
        }
        _ => Err(Fault {
            refusal: Refusal::NoWord,
            place: at,
        }),
    }
}

// Stays: into a lent token, here and above, since a reading takes 2.1 times as long as the plain one in bench/read where each word is handed out as a result, and 1.4 this way; the bar is 1.5.
// Puts the first word from `at` on into the token; where it is refused, the token stays. At or behind the end of the text, the end.
pub fn scan<'a>(text: &'a [u8], at: usize, token: &mut Token<'a>) -> Result<(), Fault>
    ensures { Scans text.now (min at (length text.now)) (after text.now at) result token.old token.new }
{
    let from = at.min(text.len());
    let place = run_end(text, Class::Layout, from);
    word_at(text, place, token)
}

// The first word from `at` on, or its fault; at or behind the end of the text, the end.
pub fn next_word<'a>(text: &'a [u8], at: usize) -> Result<Token<'a>, Fault>
    ensures is { told result ≡ after text.now at }
    ensures on { IfOk result (Stands text.now (min at (length text.now))) }
{
    let mut token = Token {
        word: Word::End,
        place: at,
        next: at,
    };
    scan(text, at, &mut token)?;
    Ok(token)
}
