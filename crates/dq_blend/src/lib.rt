//! Two answers blended on shared dimensions.
//!
//! `blend` answers each row of a first table with the last cells of the row of a second one behind it: of the row whose
//! first cells are those at the links' places in the first table's row, or nulls where there is none. The definition is
//! `blend_of` of dq_base (`specs/Blends`). An ordered map has the place of the second table's rows by their first cells;
//! its keys are ordered by `exact_cmp` of `specs/Exact.antt`, in which only equal cells tie.
//!
//! The layer above may rely on this: the answer is exactly that of the definition, for tables of any shape. One call:
//! `blend(alloc, &first, &second, &links, 1)?`.
#![tactic(auto)]

mod blending;
mod exact;
mod places;

pub use blending::blend;
