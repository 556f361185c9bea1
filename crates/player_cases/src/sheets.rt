// The sheets that the tests play.
use nodes::kind::Kind;
use nodes::node::Node;
use nodes::view::View;

// A declaration and a variable, of one letter each.
fn declaration(place: u16, kind: Kind) -> View {
    View::Declaration {
        place,
        size: 1,
        kind: kind.into(),
    }
}

fn variable(place: u16, number: u16) -> View {
    View::Variable {
        place,
        size: 1,
        number,
    }
}

fn assign(target: u16, value: u16) -> View {
    View::Assign { target, value }
}

fn series(statement: u16, rest: u16) -> View {
    View::Series { statement, rest }
}

// a := 4294967295; while a do a := a + 1 od
pub(crate) fn climbing() -> [Node; 16] {
    [
        declaration(0, Kind::Integer),
        variable(0, 0),
        View::Number { value: 4294967295 },
        assign(1, 2),
        variable(0, 0),
        variable(0, 0),
        variable(0, 0),
        View::Number { value: 1 },
        View::Plus { left: 6, right: 7 },
        assign(5, 8),
        View::Empty,
        series(9, 10),
        View::While { test: 4, body: 11 },
        View::Empty,
        series(12, 13),
        series(3, 14),
    ]
    .map(Node::from)
}

// t := "rimbayoket"; while 1 do t := t || t od, where n is declared too
pub(crate) fn doubling() -> [Node; 17] {
    [
        declaration(0, Kind::Integer),
        declaration(1, Kind::String),
        variable(1, 1),
        View::Text { place: 2, size: 10 },
        assign(2, 3),
        View::Number { value: 1 },
        variable(1, 1),
        variable(1, 1),
        variable(1, 1),
        View::Conc { left: 7, right: 8 },
        assign(6, 9),
        View::Empty,
        series(10, 11),
        View::While { test: 5, body: 12 },
        View::Empty,
        series(13, 14),
        series(4, 15),
    ]
    .map(Node::from)
}

// a := 2; if a then b := a else fi, where a and b are integers: 3 beats
pub(crate) fn branching() -> [Node; 16] {
    [
        declaration(0, Kind::Integer),
        declaration(1, Kind::Integer),
        variable(0, 0),
        View::Number { value: 2 },
        assign(2, 3),
        variable(0, 0),
        variable(1, 1),
        variable(0, 0),
        assign(6, 7),
        View::Empty,
        series(8, 9),
        View::Empty,
        View::If {
            test: 5,
            then: 10,
            otherwise: 11,
        },
        View::Empty,
        series(12, 13),
        series(4, 14),
    ]
    .map(Node::from)
}
