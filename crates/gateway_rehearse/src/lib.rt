//! A rehearsal of the gateway: senders, gateway and back end in one process, over loopback.
//! What the senders post is fixed to the byte. How the threads take turns is not, and yet the
//! report at the end is the same each time. No contract says so: runs show it.
#![tactic(auto)]

mod back_end;
mod client;
mod fault;
mod posting;
mod rehearsal;
mod sender;
mod stage;

pub use fault::RehearsalFault;
pub use posting::post_of;
pub use rehearsal::rehearse;
