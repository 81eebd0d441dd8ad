//! The outside as the product sees it: where bytes come from and go to, the clock, the gate of the threads, and a
//! disk of numbered areas that may stop at any moment. Begin with `store.rt`.
#![tactic(auto)]

mod calls;
mod clock;
mod fault;
mod gate;
mod memory_sink;
mod memory_source;
mod memory_store;
mod past;
mod replay;
mod sink;
mod source;
mod stop_images;
mod store;

pub use clock::{Clock, StepClock};
pub use fault::Failed;
pub use gate::{Gate, OpenGate, Point};
pub use memory_sink::MemorySink;
pub use memory_source::MemorySource;
pub use memory_store::MemoryStore;
pub use sink::{Sink, write_all};
pub use source::{ReadError, Source, read_to_end};
pub use store::Store;
