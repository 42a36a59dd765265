//! A book through a tenant's day.
use std::process::Abort;
use std::test::Fail;
use tenant_book::{Book, Short};

// What is free, held and spent of 100.
fn tells(rt: &impl Abort, book: &Book, free: u64, held: u64, spent: u64) {
    assert!(rt; book.granted() == 100);
    assert!(rt; book.free() == free && book.held() == held && book.spent() == spent);
}

#[test]
fn quanta_of_a_day(rt: HostRuntime) -> Result<(), Fail> {
    let mut book = Book::new(100);
    tells(&rt, &book, 100, 0, 0);
    assert!(rt; book.hold(6) == Ok(()));
    tells(&rt, &book, 94, 6, 0);
    assert!(rt; book.hold(95) == Err(Short(94)));
    tells(&rt, &book, 94, 6, 0);
    if 4 <= book.held() {
        book.spend(4);
    }
    tells(&rt, &book, 94, 2, 4);
    if 2 <= book.held() {
        book.free_up(2);
    }
    tells(&rt, &book, 96, 0, 4);
    assert!(rt; book.hold(96) == Ok(()));
    tells(&rt, &book, 0, 96, 4);
    assert!(rt; book.hold(1) == Err(Short(0)));
    Ok(())
}
