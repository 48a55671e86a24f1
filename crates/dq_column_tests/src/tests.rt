// Two columns of a small file of sales, and texts that come in no order.
use dq_base::Value;
use dq_column::{TextColumn, TextColumnBuilder, WholeColumn};
use std::alloc::Global;
use std::process::Abort;

// A column of these texts, of which an empty one stands for null.
fn column_of(rt: &impl Abort, alloc: Global, texts: &[&str]) -> TextColumn {
    let mut builder = TextColumnBuilder::new(alloc);
    for text in texts {
        let put = if text.is_empty() {
            builder.push_null()
        } else {
            builder.push(alloc, *text)
        };
        put.ok().expect(rt, "memory");
    }
    assert_eq!(rt; builder.len(), texts.len() as u64);
    builder.finish(alloc).ok().expect(rt, "memory")
}

// The row at a place has this text, of which an empty one stands for null.
fn check_text(rt: &impl Abort, alloc: Global, column: &TextColumn, place: u64, want: &str) {
    assert!(rt; place < column.len());
    match column.value(alloc, place).ok().expect(rt, "memory") {
        Value::Null => assert_eq!(rt; "", want),
        Value::Int(_) => assert_eq!(rt; "a number", want),
        Value::Word(text) => assert_eq!(rt; text.bytes(), want.as_bytes()),
    }
}

/// These texts make a column of these words and codes, which has them.
fn check_column(rt: &impl Abort, alloc: Global, texts: &[&str], words: &[&str], codes: &[u32]) {
    let column = column_of(rt, alloc, texts);
    assert_eq!(rt; column.codes().as_slice(), codes);
    let found = column.words().as_slice();
    assert_eq!(rt; found.len(), words.len());
    for (word, want) in found.iter().zip(words) {
        assert_eq!(rt; word.bytes(), want.as_bytes());
    }
    for (place, text) in texts.iter().enumerate() {
        check_text(rt, alloc, &column, place as u64, *text);
    }
}

#[test]
fn texts_have_words_and_codes(rt: HostRuntime) {
    let alloc = rt.alloc();
    let regions = ["East", "East", "West", "West", ""];
    check_column(&rt, alloc, &regions, &["East", "West"], &[1, 1, 2, 2, 0]);
    check_column(&rt, alloc, &[], &[], &[]);
    check_column(&rt, alloc, &["", ""], &[], &[0, 0]);
    let names = ["b", "", "\u{e9}", "a", "b", "Z", "ba", "a"];
    let sorted = ["Z", "a", "b", "ba", "\u{e9}"];
    check_column(&rt, alloc, &names, &sorted, &[3, 0, 5, 2, 3, 1, 4, 2]);
}

#[test]
fn numbers_have_marks(rt: HostRuntime) {
    let mut amounts = WholeColumn::new(rt.alloc());
    for amount in [Some(10), Some(5), Some(7), None, Some(4), Some(i64::MIN)] {
        amounts.push(amount).ok().expect(&rt, "memory");
    }
    let numbers = [10, 5, 7, 0, 4, i64::MIN];
    assert_eq!(rt; amounts.numbers().as_slice(), numbers.as_slice());
    let marks = [true, true, true, false, true, true];
    assert_eq!(rt; amounts.marks().as_slice(), marks.as_slice());
    assert_eq!(rt; amounts.len(), 6);
    assert!(rt; matches!(amounts.value(2), Some(Value::Int(7))));
    assert!(rt; matches!(amounts.value(3), Some(Value::Null)));
    assert!(rt; amounts.value(6).is_none());
}
