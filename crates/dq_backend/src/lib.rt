//! A back end in the process: links that hold versions of extracts and tables of values in memory, and evaluate the
//! statements that they run.
//!
//! The layer above may rely on this: `InLink` and `InDialer` fail in the calls that are planned and nowhere else, which
//! their counts of faults tell by definition. `SureLink` and `SureDialer` never fail, nor do `ShortLink` and `ShortDialer`, of
//! whose calls one finds no memory. All forms answer a text by what it means: it is parsed, its lists are looked up in the
//! tables, and its query is evaluated over the version that is mounted.
//!
//! One call: `InOffice::new().dialer(alloc, 1, &fails)?.dial(alloc)?`.
#![tactic(auto)]

mod dialer;
mod held;
mod link;
mod numbered;
mod office;
mod resolving;
mod sending;
mod short;
mod store;
mod sure;

pub use dialer::InDialer;
pub use link::InLink;
pub use office::InOffice;
pub use sending::links_and_dialers_may_be_sent;
pub use short::{ShortDialer, ShortLink, ShortOffice};
pub use sure::{SureDialer, SureLink, SureOffice};
