//! A query's answer over rows, by adding them one after another.
//!
//! A `Fold` holds the groups of the rows so far, each with one tally for each measure. `specs/Folding.antt` says what that
//! is for any list of rows (`folded`), and `specs/Tallies.antt` what a tally holds. The groups stand in slots, in the order
//! in which they came; an ordered map has the place of each key's slot (`specs/Placed.antt`). A table of hints by the
//! digests of keys stands in front of the map: a hint is believed only where the slot at its place has the key.
//!
//! The layer above may rely on this: a new fold is the one of no rows, an added row is one more row, a merged fold of the
//! same query is its rows behind, and `finish` gives the query's answer over the rows that were added. A caller shows it
//! by the invariant that its fold is `folded` of the rows so far, as `answer_of` does. A row that isn't kept allocates
//! nothing. A row of a known group allocates only for a new bound, for a new different value, and for a text of its key
//! that doesn't fit where the row before had a text.
#![tactic(auto)]

mod answers;
mod fold;
mod groups;
mod keeps;
mod order;
mod seen;
mod slots;
mod tally;
mod total;

pub use answers::answer_of;
pub use fold::Fold;
pub use keeps::passes;
