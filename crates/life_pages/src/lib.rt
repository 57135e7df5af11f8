//! HTTP/1.1 over any stream of bytes: reads requests to the archive, and writes its replies.
#![tactic(auto)]

mod answer;
mod asked;
mod desk_trait;
mod head;
mod json;
mod message;
mod message_laws;
mod pages_fault;
mod reply;
mod request_path;
mod route;
mod served_archive;
mod serving;

pub use message_laws::{laws_of_heads, laws_of_messages};
pub use pages_fault::{IoFault, MESSAGE_REFUSALS, MessageRefusal};
pub use route::{Method, Route, Template, routes};
pub use served_archive::{serve, serve_in_memory};
