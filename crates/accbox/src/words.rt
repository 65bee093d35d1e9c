// The words of a line, read one after the other.
ghost use Rattle.std.specs.Prelude.{◌≤◌, ℕ, List, IfOk};
ghost use Rattle.std.specs.Fn.{FnOnceReturnsAt};

use crate::misread::{Misread, Part, Wanted, Why};
use crate::{hex, marks};
use std::alloc::{AllocError, Global};
use terms::mark::Mark;

const BLANKS: [char; 2] = [' ', '\t'];

#[derive(Drop)]
pub(crate) struct Words<'a> {
    heap: Global,
    command: &'a str,
    // the word that was read last
    word: &'a str,
    rest: &'a str,
}

// The line without its comment and without a final carriage return.
fn uncommented(line: &str) -> &str {
    let line = line.strip_suffix('\r').unwrap_or(line);
    line.split_once('#').map_or(line, |(before, _)| before)
}

// The first word of a text, and what follows it.
fn first_word(text: &str) -> Option<(&str, &str)> {
    let text = text.trim_start_matches(BLANKS);
    if text.is_empty() {
        return None;
    }
    Some(text.split_once(BLANKS).unwrap_or((text, "")))
}

// A number in decimal digits. `parse` also takes a plus sign before them.
pub(crate) fn decimal(word: &str) -> Option<usize> {
    if word.starts_with('+') {
        return None;
    }
    word.parse().ok()
}

impl<'a> Words<'a> {
    // The words of a line, of which the first is its command; none if the line is blank.
    pub(crate) fn of_line(heap: Global, line: &'a str) -> Option<Words<'a>> {
        let (command, rest) = first_word(uncommented(line))?;
        Some(Words {
            heap,
            command,
            word: command,
            rest,
        })
    }

    pub(crate) fn command(&self) -> &'a str {
        self.command
    }

    // What is wrong with the word that was read last.
    pub(crate) fn misread(&self, why: Why) -> Misread<'a> {
        Misread {
            command: self.command,
            word: self.word,
            why,
        }
    }

    fn next(&mut self) -> Option<&'a str> {
        let (word, rest) = first_word(self.rest)?;
        self.word = word;
        self.rest = rest;
        Some(word)
    }

    pub(crate) fn word(&mut self, part: Part) -> Result<&'a str, Why> {
        self.next().ok_or(Why::Missing(part))
    }

    // What the next word says; it is wrong where `read` gives none. Part and wanted stay apart: a struct of the two would only lengthen each call.
    pub(crate) fn read<T, F: FnOnce(&str) -> Option<T>>(
        &mut self,
        part: Part,
        wanted: Wanted,
        read: F,
    ) -> Result<T, Why>
        requires { F.IsAlwaysCallable read }
        ensures { IfOk result (λ x. (word : List ℕ) × FnOnceReturnsAt F.FnOnce read word (Some x)) }
    {
        read(self.word(part)?).ok_or(Why::Wrong { part, wanted })
    }

    // The same of a list, for which there may be no memory.
    fn read_list<T: Drop, F: FnOnce(Global, &str) -> Result<Option<Vec<T>>, AllocError>>(
        &mut self,
        part: Part,
        wanted: Wanted,
        read: F,
    ) -> Result<Vec<T>, Why>
        requires { F.IsAlwaysCallable read }
    {
        let heap = self.heap;
        read(heap, self.word(part)?)?.ok_or(Why::Wrong { part, wanted })
    }

    pub(crate) fn number(&mut self, part: Part, most: usize) -> Result<usize, Why>
        ensures { IfOk result (λ n. n ≤ most) }
    {
        self.read(part, Wanted::Number { most }, |word| {
            decimal(word).filter(|number| *number <= most)
        })
    }

    pub(crate) fn id(&mut self) -> Result<u8, Why> {
        Ok(self.number(Part::Id, 255)? as u8)
    }

    pub(crate) fn byte(&mut self, part: Part) -> Result<u8, Why> {
        self.read(part, Wanted::Byte, hex::read_byte)
    }

    pub(crate) fn bytes(&mut self, part: Part) -> Result<Vec<u8>, Why> {
        self.read_list(part, Wanted::Bytes, hex::read_bytes)
    }

    pub(crate) fn mark(&mut self, part: Part) -> Result<Mark, Why> {
        self.read(part, Wanted::Number { most: 3 }, marks::read_mark)
    }

    pub(crate) fn marks(&mut self, part: Part) -> Result<Vec<Mark>, Why> {
        self.read_list(part, Wanted::Marks, marks::read_marks)
    }

    // Sees that no word is left.
    pub(crate) fn end(&mut self) -> Result<(), Why> {
        self.next().map_or(Ok(()), |_| Err(Why::Extra))
    }
}
