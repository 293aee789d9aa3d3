//! Messages of HTTP/1.0 and 1.1, byte for byte and however the bytes are cut.
//! `read_message` reads the request that a source's bytes begin with, through a `Decoder`.
//! `read_response` reads the status and the first `Retry-After` of a response, and not its body.
//! `write_response` and `write_post` write a response and a request, and return how much went out.
//! A request is whole in memory, within the limits; nothing here opens, waits or tries again.
#![tactic(auto)]

mod body;
mod decoder;
mod fault;
mod framing;
mod head;
mod header;
mod laws;
mod limits;
mod machine;
mod phase;
mod read;
mod reply;
mod request;
mod response;
mod write;
mod write_buffer;
mod written;

pub use decoder::Decoder;
pub use fault::HttpFault;
pub use header::Header;
pub use laws::{fault_lasts, one_answer, one_message, one_reading, one_reply};
pub use limits::{MAX_BODY, MAX_FIELDS, MAX_HEAD, MAX_LINE, MAX_PIECE, MAX_TRAILER};
pub use read::read_message;
pub use reply::Reply;
pub use request::{Request, find_in};
pub use response::read_response;
pub use write::{write_post, write_response};
pub use written::Written;
