//! An exchange with a program: orders and answers as records, in place of lines and texts. What the layer promises:
//!
//! 1. What is written are the answers to the orders that the bytes read spell, in their order, each made from the
//!    replies of the service to the events of its order. (`Exchange`, `IsObeyed`)
//! 2. A record that spells no order with the bytes after it is answered as wrong, and nothing is done. (`IsAnswer`)
//! 3. The answer to a call reports the words of all areas of core that it may have changed, by the state before it.
//!    (`Tells`)
//! 4. Each whole record is answered before more is read. (`CutShort`)
//! 5. All memory that an order needs besides the service's is taken before anything is done for it. (`IsStuck`)
//! 6. What a crash leaves is stated as for a call script. (`GoesBy`)
#![tactic(auto)]

mod reply_buffer;
mod reply_words;
mod room;
mod serve_order;
mod turns;
mod wire_session;

pub use wire_session::serve_wire;
