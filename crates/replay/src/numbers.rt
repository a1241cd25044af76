// The numbers of a text, and lists among them. A number or a list past the end is 0 or empty.
use program_kit::parts;
use std::alloc::{AllocError, Global};

// A number with one more digit; 0 if that is past 64 bits.
fn with_digit(n: u64, digit: u8) -> u64 {
    let d = u64::from(digit.saturating_sub(b'0'));
    n.checked_mul(10)
        .and_then(|n| n.checked_add(d))
        .unwrap_or(0)
}

// The number with these digits, 0 if there is none.
fn number(digits: &[u8]) -> u64 {
    digits.iter().fold(0, |n, digit| with_digit(n, *digit))
}

// How many numbers there are. Those that a text does not have are 0, and more of them are left out.
const COUNT: usize = 131072;

// The decimal numbers of a text, in order, and zeros after them. Each byte that is no digit ends one, and what no byte ends is none.
pub fn parse(alloc: Global, text: &[u8]) -> Result<Vec<u64>, AllocError> {
    let mut list: Vec<u64> = text
        .split(|b| !b.is_ascii_digit())
        .map(number)
        .take(COUNT + 1)
        .collect(alloc)?;
    list.pop();
    list.resize(COUNT, 0)?;
    Ok(list)
}

// The numbers, and the place of the next one. Places are counted past 2^64 from 0 on again.
#[derive(Clone, Copy)]
pub struct Numbers<'a> {
    all: &'a [u64],
    at: usize,
}

impl<'a> Numbers<'a> {
    pub fn of(list: &'a [u64]) -> Numbers<'a> {
        Numbers { all: list, at: 0 }
    }

    // How many there are, read or not.
    pub fn len(&self) -> usize {
        self.all.len()
    }

    pub fn skip(&mut self, n: usize) {
        self.at = self.at.wrapping_add(n);
    }

    // The next number.
    pub fn next(&mut self) -> u64 {
        let n = self.all.get(self.at).copied().unwrap_or(0);
        self.skip(1);
        n
    }

    // The next number, as a size.
    pub fn size(&mut self) -> usize {
        self.next() as usize
    }

    // The next number, as a count; 0 if it is more than all numbers.
    pub fn count(&mut self) -> usize {
        let n = self.size();
        if self.len() < n { 0 } else { n }
    }

    // A list: how many numbers it has, and these; empty if they are not all there. What comes next is after all of it.
    pub fn list(&mut self) -> &'a [u64] {
        let n = self.size();
        let list = parts::part_or_empty(self.all, self.at, n);
        self.skip(n);
        list
    }

    // The next K numbers.
    pub fn row<const K: usize>(&mut self) -> [u64; K] {
        let mut row = [0; K];
        for n in &mut row {
            *n = self.next();
        }
        row
    }
}
