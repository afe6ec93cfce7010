//! What the events print.
use std::alloc::{AllocError, Global};
use text_reader::byte_of;

/// The lines that were printed so far, as bytes of ASCII.
#[derive(Drop)]
pub struct Transcript {
    bytes: Vec<u8>,
}

impl Transcript {
    /// A transcript without a line. It takes no memory.
    pub fn new(alloc: Global) -> Transcript {
        Transcript {
            bytes: Vec::new(alloc),
        }
    }

    /// All that was printed.
    pub fn as_bytes(&self) -> &[u8] {
        &self.bytes
    }

    /// Adds a line.
    pub fn line(&mut self, text: &str) -> Result<(), AllocError> {
        self.bytes.extend_from_slice(text.as_bytes())?;
        self.bytes.push(b'\n')?;
        Ok(())
    }

    /// Adds a line that ends in a text in double quotes.
    pub fn quoted(&mut self, before: &str, text: &[u8]) -> Result<(), AllocError> {
        self.bytes.extend_from_slice(before.as_bytes())?;
        self.bytes.extend_from_slice(b" \"")?;
        for byte in text {
            self.byte(*byte)?;
        }
        self.bytes.extend_from_slice(b"\"\n")
    }

    // Adds a byte of a quoted text.
    fn byte(&mut self, byte: u8) -> Result<(), AllocError> {
        match byte {
            b'\n' => self.bytes.extend_from_slice(b"\\n"),
            b'\t' => self.bytes.extend_from_slice(b"\\t"),
            b'"' => self.bytes.extend_from_slice(b"\\\""),
            b'\\' => self.bytes.extend_from_slice(b"\\\\"),
            b' '..=b'~' => Ok(self.bytes.push(byte)?),
            _ => {
                let escape = [b'\\', b'x', byte_of(byte / 16), byte_of(byte % 16)];
                self.bytes.extend_from_slice(&escape)
            }
        }
    }
}
