//! The outside: where bytes come from and where they go.
//!
//! Each trait stands for one thing that may fail. Its object counts its own faults, and a call
//! answers `Err` only where that count rose. An object may tell what it holds, for contracts alone:
//! the forms in memory do, and the adapters tell what their reader or writer tells. Real streams tell
//! nothing.
//!
//! | trait | in memory | over the real thing |
//! |---|---|---|
//! | [`Source`] | [`MemSource`] | [`StreamSource`] |
//! | [`Sink`] | [`MemSink`] | [`StreamSink`] |

#![tactic(auto)]

pub mod fault;
pub mod mem_sink;
pub mod mem_source;
pub mod sink;
pub mod source;
pub mod stream_sink;
pub mod stream_source;

pub use fault::Fault;
pub use mem_sink::MemSink;
pub use mem_source::MemSource;
pub use sink::Sink;
pub use source::Source;
pub use stream_sink::StreamSink;
pub use stream_source::StreamSource;
