//! The jobs of `life` over an archive, `serve` and `deposit`, on any streams, and the reasons why they stop.
#![tactic(auto)]

mod archive_path;
mod archive_stop;
mod deposit;
mod session;

pub use archive_path::{PathFiles, deposit_path, law_of_path_jobs, serve_path};
pub use archive_stop::{ArchiveStop, connection_line};
pub use deposit::run_deposit;
pub use life_pages::serve as run_serve;
pub use session::{Connections, law_of_sessions, serve_connections, serve_files};
