//! A word in what a map prints: the name of one of several keys.
use std::fmt;

/// A word that prints as it is, with no quotation marks.
#[derive(Drop)]
pub struct Word(pub &'static str);

impl fmt::Debug for Word {
    fn fmt<W: fmt::Write>(&self, f: &mut fmt::Formatter<W>) -> fmt::Result {
        f.write_str(self.0)
    }
}
