//! What the program reads from and writes to: shelves of files, sinks of bytes, and their forms in
//! memory and over the machine.
#![tactic(auto)]

mod adapters;
mod memory_shelf;
mod memory_sink;
mod shelf;
mod sink;
mod text;

pub use adapters::{FileShelf, StreamSink, read_taken};
pub use memory_shelf::{Kept, MemoryShelf};
pub use memory_sink::MemorySink;
pub use shelf::{Shelf, TakeFault, Taken};
pub use sink::{PutFailed, Sink};
pub use text::TextBuffer;
