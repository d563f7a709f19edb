//! Names for what stands in many lines. In their file a line has a name and, behind a blank, what it stands for. Lines
//! that begin with `|` go on with the last name's text, line by line, and those that begin with `#` say what follows.

use crate::fault::Fault;
use std::alloc::Global;

#[derive(Drop)]
struct Name {
    name: String,
    text: String,
}

/// What each name stands for.
#[derive(Drop)]
pub(crate) struct Names {
    alloc: Global,
    items: Vec<Name>,
}

/// Whether the piece can only be a name: it has capital letters, digits and `_`, and begins with a letter.
fn is_name(piece: &str) -> bool {
    let bytes = piece.as_bytes();
    matches!(bytes.first(), Some(b'A'..=b'Z'))
        && bytes
            .iter()
            .all(|byte| matches!(byte, b'A'..=b'Z' | b'0'..=b'9' | b'_'))
}

impl Names {
    /// The names of a file. What a name stands for may have names that stand above it.
    pub(crate) fn read(alloc: Global, text: &str) -> Result<Names, Fault> {
        let items = Vec::new(alloc);
        let mut names = Names { alloc, items };
        for line in text.lines() {
            names.put_line(line)?;
        }
        Ok(names)
    }

    fn put_line(&mut self, line: &str) -> Result<(), Fault> {
        let (word, text) = line.split_once(" ").unwrap_or((line, ""));
        match word {
            "" | "#" => Ok(()),
            "|" => self.go_on(text),
            name => self.define(name, text),
        }
    }

    fn define(&mut self, name: &str, text: &str) -> Result<(), Fault> {
        if !is_name(name) || self.text_of(name).is_some() {
            return Err(Fault::Bad("a name has another form, or two texts"));
        }
        let text = self.written_out(text)?;
        let name = String::from_str(self.alloc, name)?;
        self.items.push(Name { name, text })?;
        Ok(())
    }

    /// A line more for the last name.
    fn go_on(&mut self, line: &str) -> Result<(), Fault> {
        let line = self.written_out(line)?;
        let last = self
            .items
            .last_mut()
            .ok_or(Fault::Bad("no name stands before the text"))?;
        if !last.text.is_empty() {
            last.text.push_str("\n")?;
        }
        last.text.push_str(line.as_str())?;
        Ok(())
    }

    fn text_of(&self, name: &str) -> Option<&str> {
        for item in &self.items {
            if item.name.as_str() == name {
                return Some(item.text.as_str());
            }
        }
        None
    }

    /// Appends what a piece stands for; `3*PORT_1` is three times what `PORT_1` stands for.
    fn put_piece(&self, out: &mut String, piece: &str) -> Result<(), Fault> {
        let (count, name) = piece.split_once("*").unwrap_or(("1", piece));
        let count = count.parse::<u32>().ok();
        let count = count.ok_or(Fault::Bad("a piece has no count"))?;
        let text = match self.text_of(name) {
            Some(text) => text,
            None if is_name(name) => return Err(Fault::Bad("nothing has this name")),
            None => name,
        };
        for _ in 0..count {
            out.push_str(text)?;
        }
        Ok(())
    }

    /// The text with its pieces, between which a `+` stands, one behind the other, and names written out.
    pub(crate) fn written_out(&self, text: &str) -> Result<String, Fault> {
        let mut out = String::new(self.alloc);
        for piece in text.split('+') {
            self.put_piece(&mut out, piece)?;
        }
        Ok(out)
    }
}
