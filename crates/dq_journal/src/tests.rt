// The journal, once through all its calls.
use crate::{Entry, Journal};
use std::test::Fail;

#[test]
fn entries_are_kept_in_order(rt: HostRuntime) -> Result<(), Fail> {
    let alloc = rt.alloc();
    let mut journal = Journal::new(alloc);
    assert_eq!(rt; journal.len(), 0);
    journal.reserve(2)?;
    journal.push(Entry::Publish { lane: 3, step: 5 });
    journal.push(Entry::End { lane: 7 });
    assert_eq!(rt; journal.len(), 2);
    assert!(rt; matches!(journal.get(0), Some(Entry::Publish { lane: 3, step: 5 })));
    assert!(rt; matches!(journal.get(1), Some(Entry::End { lane: 7 })));
    assert!(rt; journal.get(2).is_none());
    assert_eq!(rt; journal.as_slice().len(), 2);
    assert!(rt;
        matches!(
            journal.as_slice().first(),
            Some(Entry::Publish { lane: 3, step: 5 })
        )
    );
    Ok(())
}
