use crate::drive::{Course, drive};
use crate::layer::Layer;
use packed::Packed;
use rows::Rows;
use shelf::{LONGEST, Refusal, Shelf};
use std::process::Abort;
use std::test::Fail;

const NAME: &[u8] = b"rimbayoket";

// A shelf that has not been opened, and what opening refuses.
fn opens<S: Shelf>(rt: &impl Abort, shelf: &mut S) {
    assert_eq!(rt; shelf.kind(0), Err(Refusal::NoEntry));
    assert_eq!(rt; shelf.open(&[]), Err(Refusal::WrongCount));
    assert_eq!(rt; shelf.open(&[1, 3]), Err(Refusal::UnknownKind));
    assert_eq!(rt; shelf.open(&[1, 2]), Ok(()));
    assert_eq!(rt; shelf.number(0), Ok(0));
}

// What puts refuse.
fn puts<S: Shelf>(rt: &impl Abort, shelf: &mut S) {
    assert_eq!(rt; shelf.put_text(1, NAME), Ok(()));
    assert_eq!(rt; shelf.put_text(1, &[1; 81]), Err(Refusal::TextTooLong));
    assert_eq!(rt; shelf.put_number(2, 5), Err(Refusal::NoEntry));
    assert_eq!(rt; shelf.number(1), Err(Refusal::OtherKind));
}

// A refused question leaves the line, and an answered one fills it.
fn lines<S: Shelf>(rt: &impl Abort, shelf: &mut S) {
    let mut line = [7; LONGEST];
    assert_eq!(rt; shelf.text(0, &mut line), Err(Refusal::OtherKind));
    assert!(rt; line[79] == 7);
    assert_eq!(rt; shelf.text(1, &mut line), Ok(10));
    assert!(rt; line[0] == b'r' && line[9] == b't' && line[10] == 0 && line[79] == 0);
}

// A number in the place of a text.
fn turns<S: Shelf>(rt: &impl Abort, shelf: &mut S) {
    assert_eq!(rt; shelf.put_number(1, 4294967295), Ok(()));
    assert_eq!(rt; shelf.kind(1).map(u8::from), Ok(1));
    assert_eq!(rt; shelf.number(1), Ok(4294967295));
}

// The calls that every make must answer alike.
fn calls<S: Shelf>(rt: &impl Abort, shelf: &mut S) {
    opens(rt, shelf);
    puts(rt, shelf);
    lines(rt, shelf);
    turns(rt, shelf);
}

#[test]
fn rows_answer(rt: HostRuntime) -> Result<(), Fail> {
    let mut rows = Rows::new(vec![in rt.alloc(); 9; 200]?);
    assert_eq!(rt; rows.slots(), 2);
    assert_eq!(rt; rows.capacity(), 160);
    calls(&rt, &mut rows);
    assert_eq!(rt; rows.open(&[1, 1, 1]), Err(Refusal::WrongCount));
    assert_eq!(rt; rows.into_memory().len(), 200);
    Ok(())
}

#[test]
fn packed_answer(rt: HostRuntime) -> Result<(), Fail> {
    let mut packed = Packed::new(vec![in rt.alloc(); 9; 200]?);
    assert_eq!(rt; packed.slots(), 64);
    assert_eq!(rt; packed.capacity(), 200);
    calls(&rt, &mut packed);
    assert_eq!(rt; packed.into_memory().len(), 200);
    Ok(())
}

#[test]
fn a_layer_answers(rt: HostRuntime) -> Result<(), Fail> {
    let mut layer = Layer::new(Packed::new(vec![in rt.alloc(); 9; 6000]?));
    assert_eq!(rt; layer.capacity(), 5120);
    calls(&rt, &mut layer);
    assert_eq!(rt; layer.into_below().into_memory().len(), 6000);
    Ok(())
}

// The capacity is measured with the old text released.
#[test]
fn the_old_text_is_released(rt: HostRuntime) -> Result<(), Fail> {
    let mut packed = Packed::new(vec![in rt.alloc(); 0; 10]?);
    assert_eq!(rt; packed.open(&[2, 2]), Ok(()));
    assert_eq!(rt; packed.put_text(0, b"sixsix"), Ok(()));
    assert_eq!(rt; packed.put_text(0, b"nineninen"), Ok(()));
    assert_eq!(rt; packed.put_text(1, b"no"), Err(Refusal::NoCapacity));
    Ok(())
}

// The same calls on both makes have the same answers, and leave the same lines.
fn same(
    rt: &(impl Abort + AllocGlobal),
    kinds: &[u8],
    i: usize,
    j: usize,
    bytes: &[u8],
) -> Result<(), Fail> {
    let course = Course {
        kinds,
        i,
        x: 41,
        j,
        bytes,
    };
    let mut rows = Rows::new(vec![in rt.alloc(); 0; 5120]?);
    let mut packed = Packed::new(vec![in rt.alloc(); 0; 5120]?);
    let mut on_rows = [1; LONGEST];
    let mut on_packed = [1; LONGEST];
    let a = drive(&mut rows, &course, &mut on_rows);
    let b = drive(&mut packed, &course, &mut on_packed);
    assert_eq!(rt; a, b);
    assert_eq!(rt; on_rows, on_packed);
    Ok(())
}

#[test]
fn both_makes_agree(rt: HostRuntime) -> Result<(), Fail> {
    same(&rt, &[1, 2], 0, 1, NAME)?;
    same(&rt, &[1, 2], 1, 0, NAME)?;
    same(&rt, &[2], 0, 0, NAME)?;
    same(&rt, &[2; 64], 63, 62, &[8; 80])?;
    same(&rt, &[1, 2], 2, 1, &[8; 81])?;
    same(&rt, &[1; 65], 0, 1, NAME)?;
    same(&rt, &[0], 0, 1, NAME)
}
