// Lines of a tag and decimal numbers in a text of bytes, for the programs that run lists of cases. A reader has what is left of such a
// text; what is no number, or too large for where it stands, is a difference.
#![tactic(auto)]

ghost use lib.Ieee.{binary64};
ghost use Rattle.std.specs.Prelude.{◌≡◌, ◌<◌, ◌≤◌, ◌-◌, length, slice_get, is_ok, from_bits, ◌%◌, OnOk};

use std::alloc::Global;
use std::fs::File;
use std::io::Read;
use std::rt::Files;
use std::{io, str};

pub mod tally;

// The list of a file, as far as there is room for it.
pub fn read_list(rt: &impl Files, alloc: Global, path: &str, most: usize) -> io::Result<Vec<u8>> {
    let mut text = Vec::new(alloc);
    File::open(rt, path)?
        .take(most as u64)
        .read_to_end(&mut text)?;
    Ok(text)
}

// Why a case does not agree.
#[derive(Clone, Copy)]
pub enum Failure {
    Differs,
}

// What must hold for a case to agree.
pub fn demand(holds: bool) -> Result<(), Failure>
    ensures { is_ok result ≡ holds }
{
    if holds { Ok(()) } else { Err(Failure::Differs) }
}

// Whether a case agrees.
pub fn agrees(outcome: Result<(), Failure>) -> bool
    ensures { result ≡ is_ok outcome }
{
    match outcome {
        Ok(()) => true,
        Err(Failure::Differs) => false,
    }
}

// The sign stands apart: a number has up to 64 bits beside it, and `-0` is not `0`.
#[derive(Clone, Copy, PartialEq)]
pub struct Number {
    pub is_negative: bool,
    pub magnitude: u64,
}

impl From<u32> for Number {
    fn from(n: u32) -> Number {
        Number::from(u64::from(n))
    }
}

impl From<u64> for Number {
    fn from(magnitude: u64) -> Number {
        Number {
            is_negative: false,
            magnitude,
        }
    }
}

impl From<i32> for Number {
    fn from(n: i32) -> Number {
        Number::from(i64::from(n))
    }
}

impl From<i64> for Number {
    fn from(n: i64) -> Number {
        Number {
            is_negative: n < 0,
            magnitude: n.unsigned_abs(),
        }
    }
}

// What a row or a line may have for entries: a number that fits.
pub trait Entry: Copy {
    fn of(n: Number) -> Option<Self>;
}

impl Entry for Number {
    fn of(n: Number) -> Option<Number> {
        Some(n)
    }
}

impl Entry for u64 {
    fn of(n: Number) -> Option<u64> {
        if n.is_negative {
            None
        } else {
            Some(n.magnitude)
        }
    }
}

impl Entry for u32 {
    fn of(n: Number) -> Option<u32> {
        u32::try_from(u64::of(n)?).ok()
    }
}

impl Entry for i32 {
    fn of(n: Number) -> Option<i32> {
        let magnitude = i64::try_from(n.magnitude).ok()?;
        let value = if n.is_negative { -magnitude } else { magnitude };
        i32::try_from(value).ok()
    }
}

// What is left of a text.
#[derive(Clone, Copy)]
pub struct Reader<'a> {
    pub rest: &'a [u8],
}

impl<'a> Reader<'a> {
    pub fn new(text: &'a [u8]) -> Reader<'a>
        ensures { result.rest.now ≡ text.now }
    {
        Reader { rest: text }
    }

    pub fn peek(&self) -> Option<u8>
        ensures { result ≡ slice_get self.now.rest.now 0 }
    {
        self.rest.first().copied()
    }

    // Whether the next byte is this one; then it is read.
    fn skip(&mut self, byte: u8) -> bool
        ensures { length self.new.rest.now ≤ length self.old.rest.now }
    {
        self.take(byte).is_ok()
    }

    // The next byte, which must be this one.
    pub fn take(&mut self, byte: u8) -> Result<(), Failure>
        ensures not_longer { length self.new.rest.now ≤ length self.old.rest.now }
        ensures shorter { OnOk result (length self.new.rest.now < length self.old.rest.now) }
    {
        match self.rest.split_first() {
            Some((first, rest)) if *first == byte => {
                self.rest = rest;
                Ok(())
            }
            _ => Err(Failure::Differs),
        }
    }

    // The bytes that a line counts, which has a tag, and a line feed behind them. The sign of their number is not looked at.
    pub fn counted_bytes(&mut self, tag: u8) -> Result<&'a [u8], Failure>
        ensures not_longer { length self.new.rest.now ≤ length self.old.rest.now }
        ensures shorter { OnOk result (length self.new.rest.now < length self.old.rest.now) }
    {
        self.take(tag)?;
        let count = self.number()?.magnitude as usize;
        self.take(b'\n')?;
        let (bytes, rest) = self.rest.split_at_checked(count).ok_or(Failure::Differs)?;
        self.rest = rest;
        self.take(b'\n')?;
        Ok(bytes)
    }

    // The digits that come next.
    fn digits(&mut self) -> &'a [u8]
        ensures { length self.new.rest.now ≤ length self.old.rest.now }
    {
        let is_behind = |b: &u8| !b.is_ascii_digit();
        let count = self
            .rest
            .iter()
            .position(is_behind)
            .unwrap_or(self.rest.len());
        let (digits, rest) = self.rest.split_at(count);
        self.rest = rest;
        digits
    }

    // The number that comes next, with the blank before it and a sign.
    pub fn number(&mut self) -> Result<Number, Failure>
        ensures { length self.new.rest.now ≤ length self.old.rest.now }
    {
        self.skip(b' ');
        let is_negative = self.skip(b'-');
        let digits = str::from_utf8(self.digits()).unwrap_or("");
        match digits.parse::<u64>() {
            Ok(magnitude) => Ok(Number {
                is_negative,
                magnitude,
            }),
            Err(_) => Err(Failure::Differs),
        }
    }

    // The number that comes next, as an entry.
    pub fn entry<T: Entry>(&mut self) -> Result<T, Failure>
        ensures { length self.new.rest.now ≤ length self.old.rest.now }
    {
        T::of(self.number()?).ok_or(Failure::Differs)
    }

    // Goes on behind the next line feed, or to the text's end.
    pub fn next_line(&mut self)
        ensures { length self.new.rest.now ≤ length self.old.rest.now - 1 }
    {
        self.rest = match self.rest.iter().position(|b| *b == b'\n') {
            Some(end) => &self.rest[end + 1..],
            None => &[],
        };
    }

    // Goes on behind the next line with a tag, or to the text's end.
    pub fn behind_line(&mut self, tag: u8)
        ensures { length self.new.rest.now ≤ length self.old.rest.now - 1 }
    {
        while let Some(first) = self.peek() {
            self.next_line();
            if first == tag {
                return;
            }
        }
    }

    // A line that must be a tag and these numbers.
    pub fn line_of<T: Copy + Into<Number>>(&mut self, tag: u8, numbers: &[T]) -> Result<(), Failure>
        ensures not_longer { length self.new.rest.now ≤ length self.old.rest.now }
        ensures shorter { OnOk result (length self.new.rest.now < length self.old.rest.now) }
    {
        self.take(tag)?;
        for due in numbers {
            let due: Number = (*due).into();
            demand(self.peek() == Some(b' ') && self.number()? == due)?;
        }
        self.take(b'\n')
    }

    // What is left must be the line `z` with a number.
    fn closing(&mut self, lines: u64) -> Result<(), Failure> {
        self.take(b'z')?;
        demand(self.entry::<u64>()? == lines)?;
        self.take(b'\n')?;
        demand(self.rest.is_empty())
    }

    // Whether the text is a whole list: its last line is `z` and the number of lines before it, comments not counted.
    pub fn is_whole_list(mut self) -> bool {
        let mut lines: u64 = 0;
        while let Some(tag) = self.peek() {
            if tag == b'z' {
                return self.closing(lines).is_ok();
            }
            if tag != b'#' {
                lines = lines.saturating_add(1);
            }
            self.next_line();
        }
        false
    }
}

// A double from its 64 bits, a NaN for every pattern of one.
pub fn double(bits: u64) -> f64
    ensures { bits % 0x8000_0000_0000_0000 ≤ 0x7ff0_0000_0000_0000 → result ≡ from_bits binary64 bits }
{
    if bits % 0x8000_0000_0000_0000 > 0x7ff0_0000_0000_0000 {
        return f64::NAN;
    }
    f64::from_bits(bits)
}
