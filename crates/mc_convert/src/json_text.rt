//! JSON that is being written, with members made of printed words.

use json::Writer;
use mc_protocol::{OutOfMemory, Separator, read_decimal, words_in};
use std::alloc::Global;

/// JSON up to some place.
#[derive(Drop)]
pub struct JsonText {
    alloc: Global,
    out: Writer,
}

impl JsonText {
    /// An object without members yet.
    pub fn new(alloc: Global) -> Result<Self, OutOfMemory> {
        let mut out = Writer::new(Vec::new(alloc));
        out.begin_object()?;
        Ok(JsonText { alloc, out })
    }

    /// The object with its end, as a line.
    pub fn into_line(self) -> Result<Vec<u8>, OutOfMemory> {
        let JsonText { mut out, .. } = self;
        out.end_object()?;
        let mut line = out.into_inner();
        line.push(b'\n')?;
        Ok(line)
    }

    pub fn alloc(&self) -> Global {
        self.alloc
    }

    /// The words of a printed line.
    pub fn words_of<'a>(&self, line: &'a [u8]) -> Result<Vec<&'a [u8]>, OutOfMemory> {
        words_in(self.alloc, Separator::Space, line)
    }

    /// Begins a member that is an object.
    pub fn begin(&mut self, name: &str) -> Result<(), OutOfMemory> {
        self.out.key(name)?;
        self.out.begin_object()
    }

    /// Begins an object of a list.
    pub fn begin_item(&mut self) -> Result<(), OutOfMemory> {
        self.out.begin_object()
    }

    pub fn end(&mut self) -> Result<(), OutOfMemory> {
        self.out.end_object()
    }

    /// Begins a member that is a list.
    pub fn begin_list(&mut self, name: &str) -> Result<(), OutOfMemory> {
        self.out.key(name)?;
        self.out.begin_array()
    }

    pub fn end_list(&mut self) -> Result<(), OutOfMemory> {
        self.out.end_array()
    }

    /// A string of a list, or after a name.
    pub fn string(&mut self, bytes: &[u8]) -> Result<(), OutOfMemory> {
        let text = self.shown(bytes)?;
        self.out.string(text.as_str())
    }

    // The bytes as text. All that is printed is ASCII; any other byte is shown as `?`.
    fn shown(&self, bytes: &[u8]) -> Result<String, OutOfMemory> {
        let mut text = String::new(self.alloc);
        'bytes: for byte in bytes {
            match *byte {
                b' '..=b'~' => text.push(char::from(*byte))?,
                _ => text.push('?')?,
            }
        }
        Ok(text)
    }

    /// A member that is a string.
    pub fn text(&mut self, name: &str, bytes: &[u8]) -> Result<(), OutOfMemory> {
        self.out.key(name)?;
        self.string(bytes)
    }

    /// A member that is a number, or a string if the word is no decimal of 64 bits.
    pub fn number(&mut self, name: &str, word: &[u8]) -> Result<(), OutOfMemory> {
        self.out.key(name)?;
        self.number_or_string(word)
    }

    fn number_or_string(&mut self, word: &[u8]) -> Result<(), OutOfMemory> {
        match read_decimal(u64::MAX, word) {
            Ok(number) => self.out.u64(number),
            Err(_) => self.string(word),
        }
    }

    /// A member that is this number.
    pub fn count(&mut self, name: &str, number: u64) -> Result<(), OutOfMemory> {
        self.out.key(name)?;
        self.out.u64(number)
    }

    /// A member that is this number as a string, or null.
    pub fn quoted(&mut self, name: &str, number: Option<u64>) -> Result<(), OutOfMemory> {
        self.out.key(name)?;
        match number {
            Some(number) => self.out.quoted_u64(number),
            None => self.out.null(),
        }
    }

    pub fn null(&mut self, name: &str) -> Result<(), OutOfMemory> {
        self.out.key(name)?;
        self.out.null()
    }

    /// A member that is true.
    pub fn mark(&mut self, name: &str) -> Result<(), OutOfMemory> {
        self.out.key(name)?;
        self.out.boolean(true)
    }

    /// A member that is a list of these strings, if there are any.
    pub fn strings(&mut self, name: &str, lines: &[&[u8]]) -> Result<(), OutOfMemory> {
        if lines.is_empty() {
            return Ok(());
        }
        self.begin_list(name)?;
        'lines: for line in lines {
            self.string(line)?;
        }
        self.end_list()
    }

    /// A member that is a list of these numbers.
    pub fn numbers(&mut self, name: &str, words: &[&[u8]]) -> Result<(), OutOfMemory> {
        self.begin_list(name)?;
        'words: for word in words {
            self.number_or_string(word)?;
        }
        self.end_list()
    }

    /// An object of a list, whose members are these words, strings under these names.
    pub fn item(&mut self, names: &[&str], words: &[&[u8]]) -> Result<(), OutOfMemory> {
        self.begin_item()?;
        'words: for (name, word) in names.iter().zip(words) {
            self.text(name, word)?;
        }
        self.end()
    }

    /// Members for words of which each second one is a number, after its name.
    pub fn pairs(&mut self, words: &[&[u8]]) -> Result<(), OutOfMemory> {
        'pairs: for pair in words.chunks(2) {
            if let [name, number] = pair {
                let name = self.shown(name)?;
                self.number(name.as_str(), number)?;
            }
        }
        Ok(())
    }
}
