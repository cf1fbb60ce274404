//! Items in the order of a text of theirs, and a copy of some of them.
ghost use Rattle.std.specs.Prelude.{IfOk};
ghost use Rattle.uses.specs.Words.{ListsUpTo};

use iddqd_maps::id_ord_map::{IdOrdClone, IdOrdItem, IdOrdMap};
use std::alloc::{AllocError, Global};

/// A word of a book, and the page on which it stands first.
#[derive(Clone, Drop)]
pub struct Word {
    pub text: String,
    pub page: u32,
}

impl IdOrdItem for Word {
    type Key = String;

    ghost key_of = { λ word. word.text };

    fn key(&self) -> &String {
        &self.text
    }
}

impl IdOrdClone for Word {
    ghost use Rattle.iddqd_maps.specs.TextLaws.{same_text};

    ghost same_key = { λ x y same. same_text _ _ same.0 };
}

/// A copy of the words that the book has up to a page, each under its index.
pub fn up_to(words: &IdOrdMap<Word>, last: u32) -> Result<IdOrdMap<Word>, AllocError>
    ensures { IfOk result (λ some. ListsUpTo last words.now.store some.store) }
{
    let mut some: IdOrdMap<Word> = words.clone()?;
    some.retain(|word| word.page <= last);
    Ok(some)
}

fn script(alloc: Global, words: &mut IdOrdMap<Word>) -> Result<String, AllocError> {
    for (text, page) in [("map", 2), ("key", 1), ("item", 1)] {
        let text = String::from_str(alloc, text)?;
        let _ = words.insert_unique(Word { text, page });
    }
    let some = up_to(words, 1)?;
    let mut line = String::from_str(alloc, "words:")?;
    for word in some.values() {
        line.push_str(" ")?;
        line.push_str(&word.text)?;
    }
    Ok(line)
}

/// What the calls answer.
pub fn line(alloc: Global) -> Result<String, AllocError> {
    script(alloc, &mut IdOrdMap::new(alloc))
}
