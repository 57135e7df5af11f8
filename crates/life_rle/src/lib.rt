//! Reading and writing pattern files (RLE), and the streams of bytes that they pass through.
#![tactic(auto)]

mod body;
mod file_laws;
mod file_reader;
mod header;
mod line_reader;
mod memory;
mod notes;
mod pieces;
mod putting;
mod record;
mod rle_fault;
mod rle_lines;
mod stream;
mod text;
mod writer;

pub use file_laws::{
    law_of_headers, laws_of_canonical_bodies, laws_of_files, laws_of_lines_and_runs, laws_of_texts,
};
pub use file_reader::{read, read_from, read_kept};
pub use memory::{MemoryOutlet, SliceInlet};
pub use pieces::{PieceInlet, PieceOutlet};
pub use putting::write_to;
pub use record::{Record, into_plain, plain};
pub use rle_fault::{ReadFault, RleFault, WriteFault};
pub use stream::{Failed, FromRead, FromWrite, Inlet, Outlet, put_all};
pub use text::{Text, Texts};
pub use writer::{size_of, write};
