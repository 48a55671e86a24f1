use crate::dialer::InDialer;
use crate::link::InLink;
use crate::short::{ShortDialer, ShortLink};
use crate::sure::{SureDialer, SureLink};

fn asks_send<T: Send>() {}

/// Links and dialers in the process may go to another thread. The body does nothing but ask: that it is accepted is the fact.
pub fn links_and_dialers_may_be_sent() {
    asks_send::<InLink>();
    asks_send::<InDialer>();
    asks_send::<SureLink>();
    asks_send::<SureDialer>();
    asks_send::<ShortLink>();
    asks_send::<ShortDialer>();
}
