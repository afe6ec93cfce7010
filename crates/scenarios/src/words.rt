//! The words of a line: what is between spaces, and what is in double quotes.
use crate::Why;
use std::alloc::Global;
use std::mem;
use text_reader::digit_of;

/// What the next byte of a line is to the words before it.
#[derive(Clone, Copy)]
enum Place {
    Between,
    Bare,
    Quoted,
    /// After a backslash.
    Escaped,
    /// After the `x` of an escape.
    High,
    /// After the first digit of an escape, which says the upper half of a byte.
    Low(u8),
    /// After the quote that ends a word.
    Closed,
}

#[derive(Drop)]
struct Reader {
    words: Vec<Vec<u8>>,
    word: Vec<u8>,
    place: Place,
}

/// The words of a line.
pub fn words_of_line(alloc: Global, line: &[u8]) -> Result<Vec<Vec<u8>>, Why> {
    let mut reader = Reader {
        words: Vec::new(alloc),
        word: Vec::new(alloc),
        place: Place::Between,
    };
    for byte in line {
        reader.take(alloc, *byte)?;
    }
    reader.end(alloc)
}

impl Reader {
    // Goes on by one byte.
    fn take(&mut self, alloc: Global, byte: u8) -> Result<(), Why> {
        match self.place {
            Place::Between => self.begin(byte),
            Place::Bare => self.go_on(alloc, byte),
            Place::Quoted => self.quote(byte),
            Place::Escaped => self.escape(byte),
            Place::High => {
                let digit = digit_of(byte).ok_or(Why::Quote)?;
                self.place = Place::Low(digit * 16);
                Ok(())
            }
            Place::Low(high) => {
                let low = digit_of(byte).ok_or(Why::Quote)?;
                self.put(high | low)
            }
            Place::Closed if byte == b' ' => self.close(alloc),
            Place::Closed => Err(Why::Quote),
        }
    }

    // A byte between two words begins the next one, unless it is a space.
    fn begin(&mut self, byte: u8) -> Result<(), Why> {
        match byte {
            b' ' => Ok(()),
            b'"' => {
                self.place = Place::Quoted;
                Ok(())
            }
            _ => {
                self.place = Place::Bare;
                self.push(byte)
            }
        }
    }

    // A byte of a word without quotes, or the space after it.
    fn go_on(&mut self, alloc: Global, byte: u8) -> Result<(), Why> {
        match byte {
            b' ' => self.close(alloc),
            b'"' => Err(Why::Quote),
            _ => self.push(byte),
        }
    }

    // A byte within quotes.
    fn quote(&mut self, byte: u8) -> Result<(), Why> {
        match byte {
            b'"' => self.place = Place::Closed,
            b'\\' => self.place = Place::Escaped,
            _ => return self.push(byte),
        }
        Ok(())
    }

    // The byte after a backslash.
    fn escape(&mut self, byte: u8) -> Result<(), Why> {
        match byte {
            b'n' => self.put(b'\n'),
            b't' => self.put(b'\t'),
            b'\\' | b'"' => self.put(byte),
            b'x' => {
                self.place = Place::High;
                Ok(())
            }
            _ => Err(Why::Quote),
        }
    }

    // Adds the byte that an escape says.
    fn put(&mut self, byte: u8) -> Result<(), Why> {
        self.place = Place::Quoted;
        self.push(byte)
    }

    fn push(&mut self, byte: u8) -> Result<(), Why> {
        self.word.push(byte).map_err(|_| Why::Memory)
    }

    // Ends a word.
    fn close(&mut self, alloc: Global) -> Result<(), Why> {
        self.place = Place::Between;
        let word = mem::replace(&mut self.word, Vec::new(alloc));
        self.words.push(word).map_err(|_| Why::Memory)
    }

    // Ends the line.
    fn end(mut self, alloc: Global) -> Result<Vec<Vec<u8>>, Why> {
        match self.place {
            Place::Between => {}
            Place::Bare | Place::Closed => self.close(alloc)?,
            Place::Quoted | Place::Escaped | Place::High | Place::Low(_) => return Err(Why::Quote),
        }
        Ok(self.words)
    }
}
