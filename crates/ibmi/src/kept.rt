//! A source and a sink that keep what passes through them, for the help beside a status. They tell what the one within tells.
use std::alloc::Global;
use store_model::{Failed, Sink, Source};

/// The most bytes that are kept: 16 MiB.
const MOST_KEPT: usize = 16_777_216;

/// All bytes that passed, as long as there was room and memory for them.
#[derive(Drop)]
pub(crate) struct Kept {
    bytes: Vec<u8>,
    is_whole: bool,
}

impl Kept {
    fn new(alloc: Global) -> Kept {
        Kept {
            bytes: Vec::new(alloc),
            is_whole: true,
        }
    }

    fn add(&mut self, bytes: &[u8]) {
        if !self.is_whole {
            return;
        }
        let has_room = bytes.len() <= MOST_KEPT.saturating_sub(self.bytes.len());
        if !has_room || self.bytes.extend_from_slice(bytes).is_err() {
            self.is_whole = false;
        }
    }

    /// The bytes, where all are kept.
    pub(crate) fn whole(&self) -> Option<&[u8]> {
        if self.is_whole {
            Some(self.bytes.as_slice())
        } else {
            None
        }
    }
}

/// A source, and what was read of it.
#[derive(Drop)]
pub(crate) struct KeptSource<I: Source + Drop> {
    source: I,
    kept: Kept,
}

impl<I: Source + Drop> KeptSource<I> {
    /// Nothing read yet.
    pub(crate) fn new(alloc: Global, source: I) -> KeptSource<I> {
        KeptSource {
            source,
            kept: Kept::new(alloc),
        }
    }

    pub(crate) fn kept(&self) -> &Kept {
        &self.kept
    }
}

impl<I: Source + Drop> Source for KeptSource<I> {
    ghost tells = { I.tells };

    ghost left = { λ s. I.left s.source };

    ghost faults = { λ s. I.faults s.source };

    fn read(&mut self, into: &mut [u8]) -> Result<usize, Failed> {
        match self.source.read(into) {
            Ok(count) => {
                self.kept.add(&into[..count]);
                Ok(count)
            }
            Err(failed) => Err(failed),
        }
    }
}

/// A sink, and what it took.
#[derive(Drop)]
pub(crate) struct KeptSink<O: Sink + Drop> {
    sink: O,
    kept: Kept,
}

impl<O: Sink + Drop> KeptSink<O> {
    /// Nothing written yet.
    pub(crate) fn new(alloc: Global, sink: O) -> KeptSink<O> {
        KeptSink {
            sink,
            kept: Kept::new(alloc),
        }
    }

    pub(crate) fn kept(&self) -> &Kept {
        &self.kept
    }
}

impl<O: Sink + Drop> Sink for KeptSink<O> {
    ghost tells = { O.tells };

    ghost taken = { λ s. O.taken s.sink };

    ghost faults = { λ s. O.faults s.sink };

    fn write(&mut self, bytes: &[u8]) -> Result<usize, Failed> {
        match self.sink.write(bytes) {
            Ok(count) => {
                self.kept.add(&bytes[..count]);
                Ok(count)
            }
            Err(failed) => Err(failed),
        }
    }
}
