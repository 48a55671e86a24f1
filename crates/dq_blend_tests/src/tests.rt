// Blends worked out by hand. A table is spelled with a `;` behind each row and a space behind each cell.
use dq_base::{Cell, Cells, List, Memory, Numbers, Ratio, Table, Text, put_number, put_signed};
use dq_blend::blend;
use std::alloc::Global;
use std::test::Fail;

// The number of these digits.
fn number(digits: &[u8]) -> u64 {
    let mut n = 0u64;
    for digit in digits {
        n = n.wrapping_mul(10).wrapping_add(u64::from(*digit & 15));
    }
    n
}

// The quotient of two numbers that stand around a `/` at this place.
fn quotient(spelled: &[u8], place: usize) -> Cell {
    let (sum, rest) = spelled.split_at(place.min(spelled.len()));
    match rest.split_first() {
        Some((_, count)) => match Ratio::new(i128::from(number(sum)), number(count)) {
            Some(ratio) => Cell::Ratio(ratio),
            None => Cell::Null,
        },
        None => Cell::Null,
    }
}

// A cell: `null`, a whole number, a quotient as `1/2`, and else a text.
fn cell(alloc: Global, spelled: &[u8]) -> Result<Cell, Memory> {
    if spelled == b"null".as_slice() {
        return Ok(Cell::Null);
    }
    if let Some(place) = spelled.iter().position(|b| *b == b'/') {
        return Ok(quotient(spelled, place));
    }
    match spelled.first() {
        Some(48..=57) => Ok(Cell::Whole(i128::from(number(spelled)))),
        _ => Ok(Cell::Word(Text::copy_of(alloc, spelled)?)),
    }
}

// The table of a spelled one.
fn table(alloc: Global, spelled: &[u8]) -> Result<Table, Memory> {
    let mut rows = Table::new(alloc);
    let mut row = Cells::new(alloc);
    let mut word = Text::new(alloc);
    for byte in spelled {
        match *byte {
            b' ' => {
                row.push(cell(alloc, word.bytes())?)?;
                word = Text::new(alloc);
            }
            b';' => {
                rows.push(row)?;
                row = Cells::new(alloc);
            }
            _ => word.push(*byte)?,
        }
    }
    Ok(rows)
}

fn put_cell(text: &mut Text, cell: &Cell) -> Result<(), Memory> {
    match cell {
        Cell::Null => text.append(b"null"),
        Cell::Whole(n) => put_signed(text, *n),
        Cell::Word(word) => text.append(word.bytes()),
        Cell::Ratio(ratio) => {
            put_signed(text, ratio.sum())?;
            text.push(b'/')?;
            put_number(text, ratio.count())
        }
    }
}

fn put_row(text: &mut Text, row: &[Cell]) -> Result<(), Memory> {
    for cell in row {
        put_cell(text, cell)?;
        text.push(b' ')?;
    }
    text.push(b';')
}

// How a table is spelled.
fn spelled(alloc: Global, table: &Table) -> Result<Text, Memory> {
    let mut text = Text::new(alloc);
    for row in table.as_slice() {
        put_row(&mut text, row.as_slice())?;
    }
    Ok(text)
}

fn numbers(alloc: Global, items: &[u32]) -> Result<Numbers, Memory> {
    let mut list = List::new(alloc);
    for item in items {
        list.push(*item)?;
    }
    Ok(list)
}

// How two spelled tables are spelled once they are blended.
fn blended(
    alloc: Global,
    first: &[u8],
    second: &[u8],
    links: &[u32],
    measures: u32,
) -> Result<Text, Memory> {
    let first = table(alloc, first)?;
    let second = table(alloc, second)?;
    let links = numbers(alloc, links)?;
    spelled(alloc, &blend(alloc, &first, &second, &links, measures)?)
}

#[derive(Clone, Copy)]
struct Case {
    first: &'static [u8],
    second: &'static [u8],
    links: &'static [u32],
    measures: u32,
    want: &'static [u8],
}

const CASES: [Case; 7] = [
    // The sums by region, with the rows of one year.
    Case {
        first: b"null 4 ;East 15 ;West 7 ;",
        second: b"East 1 ;West 1 ;",
        links: &[1],
        measures: 1,
        want: b"null 4 null ;East 15 1 ;West 7 1 ;",
    },
    // One row for all.
    Case {
        first: b"null 4 ;East 15 ;",
        second: b"2 ;",
        links: &[],
        measures: 1,
        want: b"null 4 2 ;East 15 2 ;",
    },
    // Null agrees with null.
    Case {
        first: b"null 4 ;",
        second: b"null 9 ;",
        links: &[1],
        measures: 1,
        want: b"null 4 9 ;",
    },
    // A text is no number, and a quotient no other one.
    Case {
        first: b"'1 2 ;1/2 3 ;2/4 5 ;",
        second: b"1 8 ;2/4 9 ;",
        links: &[1],
        measures: 1,
        want: b"'1 2 null ;1/2 3 null ;2/4 5 9 ;",
    },
    // Two links, the other way round, and two measures.
    Case {
        first: b"East 2020 1 ;West 2020 2 ;",
        second: b"2020 East 3 4 ;2021 West 5 6 ;",
        links: &[2, 1],
        measures: 2,
        want: b"East 2020 1 3 4 ;West 2020 2 null null ;",
    },
    // The first of two rows, and a row that is too short.
    Case {
        first: b"East ;",
        second: b";East 1 ;East 2 ;",
        links: &[1],
        measures: 1,
        want: b"East 1 ;",
    },
    // Nothing to blend with.
    Case {
        first: b"East 1 ;",
        second: b"",
        links: &[],
        measures: 1,
        want: b"East 1 null ;",
    },
];

#[test]
fn tables_are_blended(rt: HostRuntime) -> Result<(), Fail> {
    let alloc = rt.alloc();
    for case in CASES {
        let found = blended(alloc, case.first, case.second, case.links, case.measures)?;
        assert_eq!(rt; found.bytes(), case.want);
    }
    Ok(())
}
