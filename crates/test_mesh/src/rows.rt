// Rows: an array, and how many of its first entries are lent. What stands behind these says nothing.
ghost use Rattle.std.specs.Prelude.{◌≡◌, replicate, take};

use super::{COORDINATES, LONGS, NODES, WORDS};
use ring_rows::Node;

#[derive(Clone, Copy)]
pub struct Coordinates {
    pub row: [i32; COORDINATES],
    pub length: usize,
}

#[derive(Clone, Copy)]
pub struct Words {
    pub row: [u32; WORDS],
    pub length: usize,
}

#[derive(Clone, Copy)]
pub struct Longs {
    pub row: [u64; LONGS],
    pub length: usize,
}

#[derive(Clone, Copy)]
pub struct Nodes {
    pub row: [Node; NODES],
    pub length: usize,
}

impl Coordinates {
    // The entries that are lent, no more than there are.
    pub fn as_slice(&self) -> &[i32]
        ensures { result.now ≡ take self.now.length self.now.row }
    {
        &self.row[..self.length.min(COORDINATES)]
    }

    pub fn as_mut_slice(&mut self) -> &mut [i32]
        ensures { result.now ≡ take self.old.length self.old.row }
    {
        &mut self.row[..self.length.min(COORDINATES)]
    }
}

impl Words {
    // A row that is lent with 7 in every entry.
    pub fn sevens(count: usize) -> Words
        ensures { result ≡ record { row = replicate 6144 7; length = count } }
    {
        Words {
            row: [7; WORDS],
            length: count,
        }
    }

    pub fn as_slice(&self) -> &[u32]
        ensures { result.now ≡ take self.now.length self.now.row }
    {
        &self.row[..self.length.min(WORDS)]
    }

    pub fn as_mut_slice(&mut self) -> &mut [u32]
        ensures { result.now ≡ take self.old.length self.old.row }
    {
        &mut self.row[..self.length.min(WORDS)]
    }
}

impl Longs {
    pub fn sevens(count: usize) -> Longs
        ensures { result ≡ record { row = replicate 1280 7; length = count } }
    {
        Longs {
            row: [7; LONGS],
            length: count,
        }
    }

    pub fn as_slice(&self) -> &[u64]
        ensures { result.now ≡ take self.now.length self.now.row }
    {
        &self.row[..self.length.min(LONGS)]
    }

    pub fn as_mut_slice(&mut self) -> &mut [u64]
        ensures { result.now ≡ take self.old.length self.old.row }
    {
        &mut self.row[..self.length.min(LONGS)]
    }
}

impl Nodes {
    pub fn as_slice(&self) -> &[Node]
        ensures { result.now ≡ take self.now.length self.now.row }
    {
        &self.row[..self.length.min(NODES)]
    }

    pub fn as_mut_slice(&mut self) -> &mut [Node]
        ensures { result.now ≡ take self.old.length self.old.row }
    {
        &mut self.row[..self.length.min(NODES)]
    }
}
