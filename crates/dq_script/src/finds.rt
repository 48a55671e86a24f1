ghost use Rattle.std.specs.Prelude.{◌≡◌, ◌∷◌, ◌++◌, Option, List as ListOf, ℕ, IfOk};
ghost use Rattle.std.specs.Fmt.{decimal};
ghost use Rattle.dq_script.specs.Reasons.{first_in, found_in};

use crate::misfit::path_from;
use dq_base::{Memory, Text, put_number};
use std::alloc::Global;

// What finds a number in an item.
pub trait Finds {
    type Item;

    // What is found in an item.
    ghost found: { Self → Self.Item → Option ℕ };

    fn find(&self, item: &Self::Item) -> Option<u64>
        ensures { result ≡ found self.now item.now };
}

// What is found first.
pub fn first_in<F: Finds>(finder: &F, items: &[F::Item]) -> Option<u64>
    ensures { result ≡ first_in (F.found finder.now) items.now }
{
    for item in items {
        if let Some(number) = finder.find(item) {
            return Some(number);
        }
    }
    None
}

// What finds a path in an item.
pub trait Strays {
    type Item;

    // The path that is found in an item.
    ghost stray: { Self → Self.Item → Option (ListOf ℕ) };

    fn stray(&self, alloc: Global, item: &Self::Item) -> Result<Option<Text>, Memory>
        ensures { IfOk result (λ path. path ≡ stray self.now item.now) };
}

// A path from an item's place on.
fn placed(alloc: Global, place: u64, rest: &[u8]) -> Result<Text, Memory>
    ensures { IfOk result (λ path. path ≡ 47 ∷ (decimal place ++ rest.now)) }
{
    let mut step = Text::new(alloc);
    put_number(&mut step, place)?;
    path_from(alloc, step.bytes(), rest)
}

// The path of the first item in which one is found.
pub fn found_in<S: Strays>(
    finder: &S,
    alloc: Global,
    items: &[S::Item],
) -> Result<Option<Text>, Memory>
    ensures { IfOk result (λ path. path ≡ found_in (S.stray finder.now) 0 items.now) }
{
    for (place, item) in items.iter().enumerate() {
        if let Some(rest) = finder.stray(alloc, item)? {
            return Ok(Some(placed(alloc, place as u64, rest.bytes())?));
        }
    }
    Ok(None)
}
