// A text written from the front of a lent buffer, part after part: what fits is written, and where all of it would end is counted.
ghost use Rattle.std.specs.Prelude.{◌≡◌};
ghost use Rattle.words.specs.Writing.{Put};

use crate::putting::put_bytes;
use std::fmt;

#[derive(Drop)]
pub struct Page<'a> {
    buffer: &'a mut [u8],
    end: usize,
}

impl<'a> Page<'a> {
    pub fn new(buffer: &'a mut [u8]) -> Page<'a>
        ensures { (result.end ≡ 0) × (result.buffer ≡ buffer.entry) }
    {
        Page { buffer, end: 0 }
    }

    // Where the text ends, or would end in a longer buffer.
    pub fn end(&self) -> usize
        ensures { result ≡ self.now.end }
    {
        self.end
    }

    pub fn put(&mut self, bytes: &[u8])
        ensures { Put self.old.end bytes.now self.old.buffer.now self.new.buffer.now self.new.end }
    {
        self.end = put_bytes(self.buffer, self.end, bytes);
    }
}

impl fmt::Write for Page<'_> {
    ghost write_str_gives = { λ before text after. Put before.end text before.buffer.now after.buffer.now after.end };

    fn write_str(&mut self, text: &str) -> fmt::Result {
        self.put(text.as_bytes());
        Ok(())
    }
}
