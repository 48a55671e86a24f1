use crate::link::Link;
use crate::pooled::{Lost, Pooled, Wreck};
use crate::ready::Readied;
use crate::run::Ran;

fn asks_send<T: Send>() {}

/// Pooled links, wrecks, what is lost and both answers may go to another thread where their links may. The body does nothing but
/// ask: that it is accepted is the fact.
pub fn links_may_be_sent<L: Link + Send>() {
    asks_send::<Pooled<L>>();
    asks_send::<Wreck<L>>();
    asks_send::<Lost<L>>();
    asks_send::<Readied<L>>();
    asks_send::<Ran<L>>();
}
