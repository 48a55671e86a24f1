//! The types that all crates share, and what a query's answer is.
//!
//! The definitions stand in `specs/`: the order of values and cells (`Orders`), which rows a query keeps (`Filters`), its
//! answer (`Answers`), which queries are valid (`Validity`), the canonical form (`Canonical`), which answers an answer can
//! be computed from (`Covering`), how a batch is split and fused (`Batches`), how texts are spelled (`Spelling`), and the
//! limits (`Limits`). They filter, fold and sort plain lists, and know nothing of how the program does it.
//!
//! The layer above may rely on this: every list type is seen as the list of its items, `compare_values` and
//! `compare_cells` are total orders, and a `Ratio` is within its bounds.
#![tactic(auto)]

mod bound;
mod canon;
mod cell;
mod dim;
mod duplicate;
mod invalid;
mod kept;
mod limit;
mod list;
mod memory;
mod orders;
mod predicate;
mod query;
mod ratio;
mod schema;
mod script;
mod sets;
mod spelling;
mod value;

pub use bound::Bound;
pub use canon::{Canon, Canons, Role};
pub use cell::{Cell, Cells, Table};
pub use dim::{Dim, Dims, bands_round_down};
pub use duplicate::Duplicate;
pub use invalid::Invalid;
pub use kept::Kept;
pub use limit::{
    ALL_BYTES, FILE_BYTES, Limit, MOST_ALL_ZONES, MOST_BOUND_CELLS, MOST_CELLS, MOST_COLUMNS,
    MOST_ENTRIES, MOST_EXTRACTS, MOST_FAULTS, MOST_LANES, MOST_SESSION_ITEMS, MOST_STEPS,
    MOST_TURNS, MOST_ZONES, REPORT_BYTES, SCRIPT_BYTES,
};
pub use list::{Bytes, List, Numbers, Numbers64, Text, Texts};
pub use memory::Memory;
pub use orders::{compare_cells, compare_keys, compare_predicates, compare_values};
pub use predicate::{Predicate, Predicates, Test};
pub use query::{Measure, Measures, OrderKey, OrderKeys, Queries, Query};
pub use ratio::Ratio;
pub use schema::{Schema, Schemas, Sort, Sorts};
pub use script::{
    Blend, Blends, Fails, FailsList, How, LaneSteps, Script, Session, Sessions, Step, Steps,
};
pub use sets::put;
pub use spelling::{is_plain, put_labelled, put_number, put_signed, put_spelled};
pub use value::{Value, Values};
