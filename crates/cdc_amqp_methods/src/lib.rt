//! A method, a header or a table is read by its grammar, or refused, and a request is written as defined. The crate has
//! those of AMQP 0-9-1 that a consumer sends and receives.
#![tactic(auto)]

mod closes;
mod contents;
mod requests;
mod responses;
mod tables;

pub use closes::{CloseReason, close_reason};
pub use contents::{ContentHeader, content_header};
pub use requests::{CONSUMER_TAG, PROPERTIES, Request, push_request};
pub use responses::{Response, response_of};
pub use tables::{Field, field_at, find_field};
