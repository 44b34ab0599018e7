// Meshes, rows, points and centres from the text of a list of cases, and rows held against such a text (tests/reference/README.md and
// oracle/FORMAT.md have the formats). A line of a row is its tag, the row's length, the number that fills it, and the row's first
// entries; a plain line is its tag and entries. What cannot be read as it should be is a difference; it is never taken for something
// else.
#![tactic(auto)]

ghost use Rattle.std.specs.Prelude.{◌≡◌, ◌≤◌, length, replicate, pos, ◌↔◌, IsTrue, All, IfOk};
ghost use Rattle.test_mesh.specs.Lent.{CoordinatesLent, MeshLent, RingLent};

use mesh::Counts;
use ring_rows::Node;
use test_text::{Entry, Failure, Number, Reader};

pub mod lines;
pub mod rows;

pub use rows::{Coordinates, Longs, Nodes, Words};

// No row of a list is longer than these.
pub const COORDINATES: usize = 512;

pub const WORDS: usize = 6144;

pub const LONGS: usize = 1280;

pub const NODES: usize = 256;

// Of the lines of a mesh: counts, positions, heights, out edges, half-edges and faces. The rows of a plain one are as long as they may be,
// and zeros behind what is written.
#[derive(Clone, Copy)]
pub struct Form {
    tags: [u8; 6],
    is_plain: bool,
}

// A mesh that is lent.
pub const LENT: Form = Form {
    tags: [b'm', b'p', b'e', b'o', b'h', b'f'],
    is_plain: false,
};

// The mesh that a call must leave.
pub const LEFT: Form = Form {
    tags: [b'M', b'P', b'E', b'O', b'H', b'F'],
    is_plain: false,
};

// A mesh as the Rust has it.
pub const PLAIN: Form = Form {
    tags: [b'm', b'p', b'e', b'o', b'h', b'f'],
    is_plain: true,
};

// `heights` has a number for each vertex.
#[derive(Clone, Copy)]
pub struct Mesh {
    pub counts: Counts,
    pub positions: Coordinates,
    pub heights: Coordinates,
    pub outs: Words,
    pub halves: Words,
    pub faces: Words,
}

// The rows of the ring.
#[derive(Clone, Copy)]
pub struct Ring {
    pub nodes: Nodes,
    pub freed: Words,
    pub buckets: Words,
}

// The entries that are written from here to the line's end, and `past` behind them, in a whole row; how many it has.
fn read_entries<T: Entry>(text: &mut Reader, row: &mut [T], past: T) -> Result<usize, Failure>
    ensures length { IfOk result (λ n. n ≡ length row.old) }
    ensures not_longer { length text.new.rest.now ≤ length text.old.rest.now }
{
    for entry in row.iter_mut() {
        *entry = if text.peek() == Some(b' ') {
            text.entry()?
        } else {
            past
        };
    }
    text.take(b'\n')?;
    Ok(row.len())
}

// A plain line of a row, which has all its entries; how many these are.
pub fn read_plain_row<T: Entry>(
    text: &mut Reader,
    tag: u8,
    row: &mut [T],
    past: T,
) -> Result<usize, Failure>
    ensures length { IfOk result (λ n. n ≡ length row.old) }
    ensures not_longer { length text.new.rest.now ≤ length text.old.rest.now }
{
    text.take(tag)?;
    read_entries(text, row, past)
}

// The length of a row that can be lent so many entries.
fn read_length(text: &mut Reader, most: usize) -> Result<usize, Failure>
    ensures most { IfOk result (λ n. n ≤ most) }
    ensures not_longer { length text.new.rest.now ≤ length text.old.rest.now }
{
    let length = text.entry::<u64>()? as usize;
    test_text::demand(length <= most)?;
    Ok(length)
}

// A line of a row, which has the first entries of this one; how many these are.
pub fn read_row<T: Entry>(text: &mut Reader, tag: u8, row: &mut [T]) -> Result<usize, Failure>
    ensures most { IfOk result (λ n. n ≤ length row.old) }
    ensures not_longer { length text.new.rest.now ≤ length text.old.rest.now }
{
    text.take(tag)?;
    let length = read_length(text, row.len())?;
    let past = text.entry()?;
    read_entries(text, &mut row[..length], past)
}

// Heights, whose line may be missing: then they are zeros, and more than any list needs.
pub fn read_heights(text: &mut Reader, tag: u8) -> Result<Coordinates, Failure>
    ensures lent { IfOk result CoordinatesLent }
    ensures not_longer { length text.new.rest.now ≤ length text.old.rest.now }
{
    let mut heights = zero_heights();
    if text.peek() == Some(tag) {
        heights.length = read_row(text, tag, &mut heights.row)?;
    }
    Ok(heights)
}

pub fn zero_heights() -> Coordinates
    ensures zeros { result ≡ record { row = replicate 512 (pos 0); length = 512 } }
    ensures lent { CoordinatesLent result }
{
    Coordinates {
        row: [0; COORDINATES],
        length: COORDINATES,
    }
}

// The line with the counts.
fn read_counts(text: &mut Reader, tag: u8) -> Result<Counts, Failure>
    ensures { length text.new.rest.now ≤ length text.old.rest.now }
{
    text.take(tag)?;
    let vertices = text.entry()?;
    let edges = text.entry()?;
    let faces = text.entry()?;
    text.take(b'\n')?;
    Ok(Counts {
        vertices,
        edges,
        faces,
    })
}

impl Form {
    fn read_row<T: Entry + Default>(
        self,
        text: &mut Reader,
        tag: u8,
        row: &mut [T],
    ) -> Result<usize, Failure>
        ensures most { IfOk result (λ n. n ≤ length row.old) }
        ensures not_longer { length text.new.rest.now ≤ length text.old.rest.now }
    {
        if self.is_plain {
            read_plain_row(text, tag, row, T::default())
        } else {
            read_row(text, tag, row)
        }
    }

    // Six lines; that of the heights may be missing.
    pub fn read(self, text: &mut Reader) -> Result<Mesh, Failure>
        ensures lent { IfOk result MeshLent }
        ensures not_longer { length text.new.rest.now ≤ length text.old.rest.now }
    {
        let [m, p, e, o, h, f] = self.tags;
        let words = Words::sevens(WORDS);
        let mut mesh = Mesh {
            counts: read_counts(text, m)?,
            positions: zero_heights(),
            heights: zero_heights(),
            outs: words,
            halves: words,
            faces: words,
        };
        mesh.positions.length = self.read_row(text, p, &mut mesh.positions.row)?;
        mesh.heights = read_heights(text, e)?;
        mesh.outs.length = self.read_row(text, o, &mut mesh.outs.row)?;
        mesh.halves.length = self.read_row(text, h, &mut mesh.halves.row)?;
        mesh.faces.length = self.read_row(text, f, &mut mesh.faces.row)?;
        Ok(mesh)
    }
}

impl Mesh {
    // Whether counts and rows are the same; of a row, what is lent.
    pub fn is(&self, other: &Mesh) -> bool
        ensures { IsTrue result → self.now.counts ≡ other.now.counts }
    {
        let a = self.counts;
        let b = other.counts;
        a.vertices == b.vertices
            && a.edges == b.edges
            && a.faces == b.faces
            && self.positions.as_slice() == other.positions.as_slice()
            && self.heights.as_slice() == other.heights.as_slice()
            && self.outs.as_slice() == other.outs.as_slice()
            && self.halves.as_slice() == other.halves.as_slice()
            && self.faces.as_slice() == other.faces.as_slice()
    }
}

// Whether the answers are those of a line.
pub fn are_due(answers: &[u64], due: &[Number]) -> bool
    ensures { IsTrue result → length answers.now ≡ length due.now }
{
    answers.len() == due.len()
        && answers
            .iter()
            .zip(due)
            .all(|(answer, due)| Number::from(*answer) == *due)
}

// Whether each entry of a row is v.
pub fn holds(row: &[u32], v: u32) -> bool
    ensures { IsTrue result ↔ All (λ entry. entry ≡ v) row.now }
{
    row.iter().all(|entry| *entry == v)
}

fn node_holds(node: &Node, v: u32) -> bool {
    node.angle == f64::from(v) && node.edge == v && node.left == v && node.right == v
}

impl Ring {
    // Rows that are lent with 7 in every field.
    pub fn sevens(nodes: usize, freed: usize, buckets: usize) -> Ring
        ensures nodes { result.nodes.length ≡ nodes }
        ensures freed { result.freed ≡ record { row = replicate 6144 7; length = freed } }
        ensures buckets { result.buckets ≡ record { row = replicate 6144 7; length = buckets } }
    {
        let seven = Node {
            angle: 7.0,
            edge: 7,
            left: 7,
            right: 7,
        };
        Ring {
            nodes: Nodes {
                row: [seven; NODES],
                length: nodes,
            },
            freed: Words::sevens(freed),
            buckets: Words::sevens(buckets),
        }
    }

    // `n nodes freed buckets`
    pub fn read(text: &mut Reader) -> Result<Ring, Failure>
        ensures lent { IfOk result RingLent }
        ensures not_longer { length text.new.rest.now ≤ length text.old.rest.now }
    {
        text.take(b'n')?;
        let nodes = read_length(text, NODES)?;
        let freed = read_length(text, WORDS)?;
        let buckets = read_length(text, WORDS)?;
        text.take(b'\n')?;
        Ok(Ring::sevens(nodes, freed, buckets))
    }

    // Whether the rows hold v in every entry.
    pub fn holds(&self, v: u32) -> bool {
        self.nodes.as_slice().iter().all(|node| node_holds(node, v))
            && holds(self.freed.as_slice(), v)
            && holds(self.buckets.as_slice(), v)
    }
}
