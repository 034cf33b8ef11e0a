//! Names of files as diagnostics show them.

use std::alloc::{AllocError, Global};
use std::fmt;
use std::fmt::{Display, Formatter, Write};

/// A name whose control characters are shown by their numbers, so that no name can move the cursor of a terminal, or
/// begin a line of its own.
#[derive(Clone, Copy)]
pub struct Escaped<'a>(pub &'a str);

impl<'a> Display for Escaped<'a> {
    fn fmt<W: Write>(&self, f: &mut Formatter<W>) -> fmt::Result {
        for c in self.0.chars() {
            if c.is_control() {
                let number = u32::from(c);
                write!(f, "\\u{{{number:x}}}")?;
            } else {
                f.write_char(c)?;
            }
        }
        Ok(())
    }
}

/// The same as a text.
pub fn escaped_text(alloc: Global, name: &str) -> Result<String, AllocError> {
    let name = Escaped(name);
    let mut text = String::new(alloc);
    // (a write to a text fails only if memory runs out)
    match write!(text, "{name}") {
        Ok(()) => Ok(text),
        Err(_) => Err(AllocError),
    }
}
