// Words of a line: runs of bytes between spaces and tabs, or for a name between double quotes.
use crate::commands::Fault;
use crate::texts;

// What is left of a line, from which words are taken.
#[derive(Drop)]
pub struct Words<'a>(pub &'a [u8]);

fn is_blank(b: u8) -> bool {
    b == b' ' || b == b'\t'
}

// The bytes before the first that ends them, and the rest from it on.
fn split<F: Fn(u8) -> bool>(text: &[u8], is_end: F) -> (&[u8], &[u8])
    requires { F.IsAlwaysCallable is_end }
{
    let n = text.iter().position(|b| is_end(*b)).unwrap_or(text.len());
    text.split_at(n)
}

impl<'a> Words<'a> {
    // What is left from its first word on.
    fn skip_blanks(&mut self) {
        self.0 = split(self.0, |b| !is_blank(b)).1;
    }

    // The next bare word, if there is one.
    pub fn next(&mut self) -> Option<&'a [u8]> {
        self.skip_blanks();
        let (word, rest) = split(self.0, is_blank);
        self.0 = rest;
        if word.is_empty() { None } else { Some(word) }
    }

    // The next bare word, which must be there.
    pub fn word(&mut self) -> Result<&'a [u8], Fault> {
        self.next().ok_or(Fault::Missing)
    }

    // The next word, which must be a number.
    pub fn number(&mut self) -> Result<usize, Fault> {
        texts::number(self.word()?).ok_or(Fault::Number)
    }

    // The next word, a name. A blank or the line's end must follow its last quote.
    pub fn name(&mut self) -> Result<&'a [u8], Fault> {
        self.skip_blanks();
        let [b'"', quoted @ ..] = self.0 else {
            return self.word();
        };
        let (name, rest) = split(quoted, |b| b == b'"');
        match rest {
            [_, after @ ..] if after.first().is_none_or(|b| is_blank(*b)) => {
                self.0 = after;
                Ok(name)
            }
            _ => Err(Fault::Quote),
        }
    }

    // No word is left.
    pub fn end(&mut self) -> Result<(), Fault> {
        match self.next() {
            None => Ok(()),
            Some(_) => Err(Fault::Extra),
        }
    }
}
