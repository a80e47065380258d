//! Messages of HTTP/1.1: the heads and bodies of requests from any source, and replies to any sink.
#![tactic(auto)]

mod block;
mod body;
mod buffer;
mod framing;
mod head;
mod heads;
mod lines;
mod pieces;
mod query;
mod reply;
mod route;
mod search;
mod verb;

pub use body::{BodyError, body_piece, pass_over, read_body};
pub use buffer::Buffer;
pub use head::{Head, HeadError};
pub use heads::read_head;
pub use lines::{encoding_of, first_named, is_repeated, lines_named};
pub use query::{first_value, first_value_in, pairs_of};
pub use reply::{Answered, Kind, WriteFault, write_reply};
pub use route::{Route, RouteError, Routes};
pub use verb::Verb;
