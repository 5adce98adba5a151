//! Short words for longer texts, so that rows can be read.
use crate::row::{Row, read_row};
use crate::run::read_file;
use std::alloc::{AllocError, Global};
use std::rt::Files;

/// Words, and the texts that they stand for.
#[derive(Drop)]
pub struct Glossary {
    entries: Vec<Row>,
}

/// The entry that the line is, or none where it is no word with a text.
fn read_entry(alloc: Global, line: &[u8]) -> Result<Option<Row>, AllocError> {
    match read_row(alloc, line)? {
        Some(entry) if entry.len() == 2 => Ok(Some(entry)),
        _ => Ok(None),
    }
}

/// Whether the line is none: it is empty or a comment.
fn is_bare(line: &[u8]) -> bool {
    line.is_empty() || line.starts_with(b"#")
}

impl Glossary {
    /// The words that the text gives, a line a word, with its text behind a tab. None is given where a line is no such.
    pub fn read(alloc: Global, text: &[u8]) -> Result<Option<Glossary>, AllocError> {
        let mut entries = Vec::new(alloc);
        for line in text.split(|byte| *byte == b'\n') {
            if is_bare(line) {
                continue;
            }
            let Some(entry) = read_entry(alloc, line)? else {
                return Ok(None);
            };
            entries.push(entry)?;
        }
        Ok(Some(Glossary { entries }))
    }

    /// What the word stands for, if it is one of these.
    pub fn meaning(&self, word: &[u8]) -> Option<&[u8]> {
        for entry in &self.entries {
            if entry.field(0) == word {
                return Some(entry.field(1));
            }
        }
        None
    }

    /// Adds what the word stands for, or else the word.
    fn push(&self, spelled: &mut Vec<u8>, word: &[u8]) -> Result<(), AllocError> {
        spelled.extend_from_slice(self.meaning(word).unwrap_or(word))
    }

    /// The text with what its words stand for in their place. Blanks and commas part words, and those that aren't among these stay.
    pub fn spelled(&self, alloc: Global, text: &[u8]) -> Result<Vec<u8>, AllocError> {
        let mut spelled = Vec::new(alloc);
        let mut word = Vec::new(alloc);
        for byte in text {
            if *byte == b' ' || *byte == b',' {
                self.push(&mut spelled, &word)?;
                spelled.push(*byte)?;
                word.clear();
            } else {
                word.push(*byte)?;
            }
        }
        self.push(&mut spelled, &word)?;
        Ok(spelled)
    }

    /// What the letters stand for, each of which is a word, with blanks between them; none where one of them isn't among these.
    pub fn spelled_letters(
        &self,
        alloc: Global,
        letters: &[u8],
    ) -> Result<Option<Vec<u8>>, AllocError> {
        let mut spelled = Vec::new(alloc);
        for letter in letters {
            let Some(meaning) = self.meaning(&[*letter]) else {
                return Ok(None);
            };
            spelled.extend_from_slice(meaning)?;
            spelled.push(b' ')?;
        }
        Ok(Some(spelled))
    }
}

/// The words of the file; where it can't be read, that is printed.
pub fn read_glossary<R: Files + Print + AllocGlobal>(rt: &R, file: &str) -> Option<Glossary> {
    let text = read_file(rt, file)?;
    match Glossary::read(rt.alloc(), &text) {
        Ok(Some(glossary)) => Some(glossary),
        _ => {
            let _ = println!(rt; "{file}: no words");
            None
        }
    }
}
