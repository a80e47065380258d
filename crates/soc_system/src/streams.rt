//! Readers and writers of the system as sources and sinks. What passes through them is not told.
use crate::reasons::refusal_in;
use soc_edge::{Failed, FaultCount, Sink, Source, Tells};
use std::io::{Read, Write};

/// A reader as a source.
#[derive(Drop)]
pub struct InputStream<R> {
    reader: R,
    faults: FaultCount,
}

impl<R> InputStream<R> {
    /// A source of what the reader gives.
    pub fn new(reader: R) -> Self {
        InputStream {
            reader,
            faults: FaultCount::new(),
        }
    }
}

impl<R> Tells for InputStream<R> {
    ghost use Rattle.soc_edge.specs.Told.{untold};

    ghost told = { λ stream. record untold { read_faults = stream.faults.count } };
}

impl<R: Read> Source for InputStream<R> {
    fn read(&mut self, into: &mut [u8]) -> Result<usize, Failed> {
        let answer = self.reader.read(into);
        self.faults.counted(answer)
    }
}

/// A writer as a sink. A writer that takes nothing of some bytes has failed.
#[derive(Drop)]
pub struct OutputStream<W> {
    writer: W,
    faults: FaultCount,
    refusal: Option<u8>,
}

impl<W> OutputStream<W> {
    /// A sink that hands bytes to the writer.
    pub fn new(writer: W) -> Self {
        OutputStream {
            writer,
            faults: FaultCount::new(),
            refusal: None,
        }
    }

    /// The number of the refusal that was written, where one was.
    pub fn refusal(&self) -> Option<u8> {
        self.refusal
    }
}

impl<W> Tells for OutputStream<W> {
    ghost use Rattle.soc_edge.specs.Told.{untold};

    ghost told = { λ stream. record untold { write_faults = stream.faults.count } };
}

impl<W: Write> Sink for OutputStream<W> {
    fn write(&mut self, bytes: &[u8]) -> Result<usize, Failed> {
        if let Ok(count) = self.writer.write(bytes) {
            if count > 0 || bytes.is_empty() {
                self.refusal = refusal_in(bytes);
                return Ok(count);
            }
        }
        Err(self.faults.fail())
    }
}
