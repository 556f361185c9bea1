// The value of an expression.
ghost use Rattle.std.specs.Prelude.{◌≡◌, ◌≤◌, ◌≢◌, slice_index_or};
ghost use Rattle.nodes.specs.Nodes.{kinds, view_at, string};
ghost use Rattle.deck.specs.Sound.{kind_in};
ghost use Rattle.deck.specs.Sheets.{sheet_of};
ghost use Rattle.shelf.specs.Limits.{longest};
ghost use Rattle.shelf.specs.Value.{num_of, number};
ghost use Rattle.semantics.specs.Syntax.{expression};
ghost use Rattle.semantics.specs.Expressions.{value};
ghost use Rattle.semantics.specs.Calls.{seen};
ghost use Rattle.player.specs.Evaluation.{numbered, limited, Appended, Spelled, Computed};

use crate::course::moves::view_at;
use deck::deck::Deck;
use nodes::view::View;
use semantics::call::Outcome;
use semantics::status::Cause;
use shelf::{Kind, LONGEST, Refusal, Shelf};
use words::scan::LARGEST;

// What stands at i; a text stands in the line, with zeros behind it.
pub(crate) fn seen<S: Shelf>(
    shelf: &S,
    i: usize,
    line: &mut [u8; LONGEST],
) -> Result<Outcome, Refusal>
    ensures answer { result ≡ (seen (S.Shelf.values shelf.now) i line.old).answer }
    ensures line { line.new ≡ (seen (S.Shelf.values shelf.now) i line.old).line }
{
    match shelf.kind(i)? {
        Kind::Number => shelf.number(i).map(Outcome::Number),
        Kind::Text => shelf.text(i, line).map(Outcome::Text),
    }
}

// The number at i; 0 where there is none.
fn number_at<S: Shelf>(shelf: &S, i: usize) -> u32
    ensures { result ≡ num_of (slice_index_or (S.Shelf.values shelf.now) i (number 0)) }
{
    shelf.number(i).unwrap_or(0)
}

// A sum, if it is a number.
fn limited(sum: u64) -> Result<u32, Cause>
    ensures { result ≡ limited sum }
{
    if sum > LARGEST {
        return Err(Cause::SumTooLarge);
    }
    Ok(sum as u32)
}

// What an expression that is no text comes to, as if numbers had no largest.
// Stays: a bare number, since a call that calls itself hands a `Result` on through memory: sums of 31 terms then take 1.4 times as many instructions.
// Stays: shelf and deck are handed on one by one, here and below, since a struct that lends both takes 1.24 times the time on a number loop (1.09 s for 0.88 s).
fn sum_at<S: Shelf>(shelf: &S, deck: &Deck, i: u16) -> u64
    requires { kind_in (kinds (sheet_of deck.now)) (view_at (sheet_of deck.now).nodes i) ≢ string }
    ensures { limited result ≡ numbered (value (S.Shelf.values shelf.now) (expression (sheet_of deck.now) i)) }
{
    match view_at(deck, i) {
        View::Variable { number, .. } => number_at(shelf, number as usize).into(),
        View::Number { value } => value.into(),
        View::Plus { left, right } => {
            let x = sum_at(shelf, deck, left);
            let y = sum_at(shelf, deck, right);
            x.saturating_add(y)
        }
        _ => 0,
    }
}

// The value of an expression that is no text.
// Stays: a variable and a number are answered here too, since `sum_at` calls itself and so costs a call each time: nested choices then take 1.3 to 1.9 times the time.
pub(crate) fn amount_at<S: Shelf>(shelf: &S, deck: &Deck, i: u16) -> Result<u32, Cause>
    requires { kind_in (kinds (sheet_of deck.now)) (view_at (sheet_of deck.now).nodes i) ≢ string }
    ensures { result ≡ numbered (value (S.Shelf.values shelf.now) (expression (sheet_of deck.now) i)) }
{
    match view_at(deck, i) {
        View::Variable { number, .. } => Ok(number_at(shelf, number as usize)),
        View::Number { value } => Ok(value),
        _ => limited(sum_at(shelf, deck, i)),
    }
}

// Puts the bytes into the line from `at` on, and answers where they end; none if the line is too short.
// Stays: the line and how far it is filled, here and below, since its 80 bytes are the player's own or lent by the caller of Look, as fixed memory.
fn append(line: &mut [u8; LONGEST], at: usize, bytes: &[u8]) -> Option<usize>
    requires { at ≤ longest }
    ensures { Appended line.old line.new at bytes.now result }
{
    let end = at + bytes.len();
    if end > LONGEST {
        return None;
    }
    line[at..end].copy_from_slice(bytes);
    Some(end)
}

// Appends the value of an expression that is a text, and answers where it ends; none if the line is too short.
fn spell_at<S: Shelf>(
    shelf: &S,
    deck: &Deck,
    i: u16,
    line: &mut [u8; LONGEST],
    at: usize,
) -> Option<usize>
    requires text { kind_in (kinds (sheet_of deck.now)) (view_at (sheet_of deck.now).nodes i) ≡ string }
    requires place { at ≤ longest }
    ensures { Spelled (value (S.Shelf.values shelf.now) (expression (sheet_of deck.now) i)) line.old line.new at result }
{
    match view_at(deck, i) {
        View::Variable { number, .. } => {
            let mut text = [0; LONGEST];
            match shelf.text(number as usize, &mut text) {
                Ok(n) => append(line, at, &text[..n]),
                Err(_) => Some(at),
            }
        }
        View::Text { place, size } => {
            let from = place as usize;
            let letters = deck.letters();
            append(line, at, &letters[from..from + size as usize])
        }
        View::Conc { left, right } => {
            let mid = spell_at(shelf, deck, left, line, at)?;
            spell_at(shelf, deck, right, line, mid)
        }
        _ => Some(at),
    }
}

// The value of an expression; a text stands in the line.
pub(crate) fn evaluate<S: Shelf>(
    shelf: &S,
    deck: &Deck,
    i: u16,
    line: &mut [u8; LONGEST],
) -> Result<Outcome, Cause>
    ensures { Computed (value (S.Shelf.values shelf.now) (expression (sheet_of deck.now) i)) result line.new }
{
    match view_at(deck, i) {
        View::Variable { number, .. } => {
            Ok(seen(shelf, number as usize, line).unwrap_or(Outcome::Number(0)))
        }
        View::Text { .. } | View::Conc { .. } => {
            let end = spell_at(shelf, deck, i, line, 0).ok_or(Cause::TextTooLong)?;
            Ok(Outcome::Text(end))
        }
        _ => amount_at(shelf, deck, i).map(Outcome::Number),
    }
}
