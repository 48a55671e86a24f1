// Words, numbers and spelled texts, against the table of the format.
use crate::{Left, TextFault, read_number, read_quoted, read_u32, read_u64, read_wide};

#[test]
fn numbers_are_read_as_they_are_printed(rt: HostRuntime) {
    let table = [
        ("0", Ok(0), 0),
        ("7 more", Ok(7), 5),
        ("18446744073709551615\n", Ok(18446744073709551615), 1),
        ("18446744073709551616", Err(TextFault::NotInGrammar), 0),
        ("007", Err(TextFault::NotInGrammar), 0),
        ("00", Err(TextFault::NotInGrammar), 0),
        ("", Err(TextFault::NotInGrammar), 0),
        ("-1", Err(TextFault::NotInGrammar), 0),
        ("+1", Err(TextFault::NotInGrammar), 0),
    ];
    for (text, want, behind) in table {
        let mut left = Left::new(text.as_bytes());
        assert_eq!(rt; read_u64(&mut left), want, "{text}");
        if want.is_ok() {
            assert_eq!(rt; left.len(), behind, "{text}");
        }
    }
    assert_eq!(rt; read_u32(&mut Left::new(b"4294967295")), Ok(4294967295));
    assert_eq!(rt;
        read_u32(&mut Left::new(b"4294967296")),
        Err(TextFault::NotInGrammar)
    );
    assert_eq!(rt; read_number(&mut Left::new(b"9"), 9), Ok(9));
    assert_eq!(rt;
        read_number(&mut Left::new(b"10"), 9),
        Err(TextFault::NotInGrammar)
    );
}

#[test]
fn whole_numbers_have_a_minus(rt: HostRuntime) {
    let table = [
        ("-1", Ok(-1)),
        ("5", Ok(5)),
        ("-0", Err(TextFault::NotInGrammar)),
        ("-", Err(TextFault::NotInGrammar)),
        ("-170141183460469231731687303715884105728", Ok(i128::MIN)),
        (
            "170141183460469231731687303715884105728",
            Err(TextFault::NotInGrammar),
        ),
    ];
    for (text, want) in table {
        assert_eq!(rt; read_wide(&mut Left::new(text.as_bytes())), want, "{text}");
    }
}

#[test]
fn texts_and_words_are_read(rt: HostRuntime) {
    let alloc = rt.alloc();
    let mut left = Left::new(b"\"a\\22b\\00\" \"");
    assert!(rt; !left.skip(b"a"));
    assert!(rt; left.skip(b"\""));
    let text = read_quoted(alloc, &mut left).ok();
    assert_eq!(rt; text.as_ref().map(|text| text.len()), Some(4));
    assert!(rt; left.skip(b" "));
    assert_eq!(rt; left.take_byte(), Some(34));
    assert!(rt; left.is_empty());
    for other in ["a", "\\61\"", "\\2C\"", "\\2\"", "a\n\""] {
        assert_eq!(rt;
            read_quoted(alloc, &mut Left::new(other.as_bytes())).err(),
            Some(TextFault::NotInGrammar),
            "{other}"
        );
    }
}
