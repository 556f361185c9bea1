// Statements and series, each of which may hold the other.
ghost use Rattle.std.specs.Prelude.{◌≡◌, Some, OnOk};
ghost use Rattle.grammar.specs.Grammar.{Tree, more};
ghost use Rattle.grammar.specs.Machine.{State, Around, For, term as open_term, start as no_term, leaving, series as open_series, closing, done};
ghost use Rattle.cursor.specs.InHand.{Only};
ghost use Rattle.cursor.specs.Reading.{in_hand};
ghost use Rattle.cursor.specs.Starts.{start_of};
ghost use Rattle.cursor.specs.declared.start.Start.TheVariants.{Assignment, Choice, Repeat};
ghost use Rattle.parser.specs.Parts.{Space, PastTest, PastBlock, PastStatement, PastSeries, ReadAs};

use crate::expression::expression;
use cursor::cursor::Cursor;
use cursor::start::Start;
use nodes::node::Node;
use nodes::view::View;
use words::word::{Fault, Fixed};

// Name, `:=` and expression; the name is in hand.
fn assignment(cursor: &mut Cursor<'_>, out: &mut [Node]) -> Result<(), Fault>
    requires { Space cursor.old × (start_of (in_hand cursor.old) ≡ Some Assignment) }
    ensures on { OnOk result (PastStatement cursor.old cursor.new) }
    ensures is { ReadAs open_series done cursor.old.count out.old out.new result cursor.old cursor.new }
{
    let target = cursor.count;
    let name = cursor.variable();
    cursor.push(out, name);
    cursor.step()?;
    cursor.expect(Fixed::Becomes)?;
    expression(cursor, out)?;
    let value = cursor.last();
    cursor.push(out, View::Assign { target, value }.into());
    Ok(())
}

// The test of a choice or a loop, and the word behind it.
// Stays: beside `block`, since a function handed on within a cycle of calls gets no proof, and each is two lines.
fn test(cursor: &mut Cursor<'_>, out: &mut [Node], word: Fixed) -> Result<(), Fault>
    requires { Space cursor.old }
    ensures on { OnOk result (PastTest cursor.old cursor.new) }
    ensures is { (k : Around → For) (next : Around → Tree → State) → ((o : Around) (e : Tree) → Only word (leaving (k o) e) (next o e)) → ReadAs (λ o. open_term no_term (k o)) next cursor.old.count out.old out.new result cursor.old cursor.new }
{
    expression(cursor, out)?;
    cursor.expect(word)
}

// A series inside a statement or a sheet, and the word behind it.
#[cycle(block_choice_repeat_rest_series_statement)]
pub fn block(cursor: &mut Cursor<'_>, out: &mut [Node], word: Fixed) -> Result<(), Fault>
    requires { Space cursor.old }
    ensures on { OnOk result (PastBlock cursor.old cursor.new) }
    ensures is { (k : Around → Around) (next : Around → Tree → State) → ((o : Around) (a : Tree) → Only word (closing (k o) a) (next o a)) → ReadAs (λ o. open_series (k o)) next cursor.old.count out.old out.new result cursor.old cursor.new }
{
    series(cursor, out)?;
    cursor.expect(word)
}

// `if` expression `then` series `else` series `fi`; the `if` is in hand.
#[cycle(block_choice_repeat_rest_series_statement)]
fn choice(cursor: &mut Cursor<'_>, out: &mut [Node]) -> Result<(), Fault>
    requires { Space cursor.old × (start_of (in_hand cursor.old) ≡ Some Choice) }
    ensures on { OnOk result (PastStatement cursor.old cursor.new) }
    ensures is { ReadAs open_series done cursor.old.count out.old out.new result cursor.old cursor.new }
{
    cursor.expect(Fixed::If)?;
    test(cursor, out, Fixed::Then)?;
    let tested = cursor.last();
    block(cursor, out, Fixed::Else)?;
    let then = cursor.last();
    block(cursor, out, Fixed::Fi)?;
    let otherwise = cursor.last();
    let node = View::If {
        test: tested,
        then,
        otherwise,
    };
    cursor.push(out, node.into());
    Ok(())
}

// `while` expression `do` series `od`; the `while` is in hand.
#[cycle(block_choice_repeat_rest_series_statement)]
fn repeat(cursor: &mut Cursor<'_>, out: &mut [Node]) -> Result<(), Fault>
    requires { Space cursor.old × (start_of (in_hand cursor.old) ≡ Some Repeat) }
    ensures on { OnOk result (PastStatement cursor.old cursor.new) }
    ensures is { ReadAs open_series done cursor.old.count out.old out.new result cursor.old cursor.new }
{
    cursor.expect(Fixed::While)?;
    test(cursor, out, Fixed::Do)?;
    let tested = cursor.last();
    block(cursor, out, Fixed::Od)?;
    let body = cursor.last();
    cursor.push(out, View::While { test: tested, body }.into());
    Ok(())
}

#[cycle(block_choice_repeat_rest_series_statement)]
fn statement(cursor: &mut Cursor<'_>, out: &mut [Node], start: Start) -> Result<(), Fault>
    requires { Space cursor.old × (start_of (in_hand cursor.old) ≡ Some start) }
    ensures on { OnOk result (PastStatement cursor.old cursor.new) }
    ensures is { ReadAs open_series done cursor.old.count out.old out.new result cursor.old cursor.new }
{
    match start {
        Start::Assignment => assignment(cursor, out),
        Start::Choice => choice(cursor, out),
        Start::Repeat => repeat(cursor, out),
    }
}

// What follows a statement in its series: `;` and a series, or nothing.
#[cycle(block_choice_repeat_rest_series_statement)]
fn rest(cursor: &mut Cursor<'_>, out: &mut [Node]) -> Result<(), Fault>
    requires { Space cursor.old }
    ensures on { OnOk result (PastSeries cursor.old cursor.new) }
    ensures is { (s : Tree) → ReadAs (λ o. done o s) (λ o a. closing o (more s a)) cursor.old.count out.old out.new result cursor.old cursor.new }
{
    if cursor.is(Fixed::Semicolon) {
        cursor.step()?;
        series(cursor, out)
    } else {
        cursor.push(out, View::Empty.into());
        Ok(())
    }
}

#[cycle(block_choice_repeat_rest_series_statement)]
pub fn series(cursor: &mut Cursor<'_>, out: &mut [Node]) -> Result<(), Fault>
    requires { Space cursor.old }
    ensures on { OnOk result (PastSeries cursor.old cursor.new) }
    ensures is { ReadAs open_series closing cursor.old.count out.old out.new result cursor.old cursor.new }
{
    match cursor.start() {
        None => {
            cursor.push(out, View::Empty.into());
            Ok(())
        }
        Some(start) => {
            statement(cursor, out, start)?;
            let statement = cursor.last();
            rest(cursor, out)?;
            let rest = cursor.last();
            cursor.push(out, View::Series { statement, rest }.into());
            Ok(())
        }
    }
}
