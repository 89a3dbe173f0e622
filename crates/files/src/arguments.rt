use std::alloc::Global;
use std::io;
use std::io::{Error, ErrorKind};
use std::rt::Env;

/// The longest word of a command line, in bytes: Linux hands over none that is longer.
const LONGEST_WORD: usize = 131_072;

/// The words of a command line, as text.
#[derive(Drop)]
pub struct Arguments {
    /// The words, that of the program first. What is no UTF-8 in one is replaced by U+FFFD.
    pub words: Vec<String>,
    /// Those of them in which something was replaced.
    replaced: Vec<String>,
}

impl Arguments {
    /// The words that the program was called with. It fails for want of memory.
    pub fn of<R: Env + AllocGlobal>(rt: &R) -> io::Result<Arguments> {
        let mut buffer = vec![in rt.alloc(); 0; LONGEST_WORD]?;
        let mut arguments = Arguments {
            words: Vec::new(rt.alloc()),
            replaced: Vec::new(rt.alloc()),
        };
        for place in 0..usize::MAX {
            let Ok(length) = rt.arg(place, buffer.as_mut_slice()) else {
                break;
            };
            arguments.add(rt.alloc(), &buffer.as_slice()[..length])?;
        }
        Ok(arguments)
    }

    /// Adds a word by its bytes.
    fn add(&mut self, heap: Global, word: &[u8]) -> io::Result<()> {
        let text = String::from_utf8_lossy(heap, word)?;
        if text.as_bytes() != word {
            self.replaced.push(text.clone()?)?;
        }
        self.words.push(text)?;
        Ok(())
    }

    /// Refuses a word in which something was replaced: it is not the name that was meant.
    pub(crate) fn check_name(&self, name: &str) -> io::Result<()> {
        if self.replaced.iter().any(|word| word.as_str() == name) {
            Err(Error::new(ErrorKind::InvalidInput, "its name is not UTF-8"))
        } else {
            Ok(())
        }
    }
}
