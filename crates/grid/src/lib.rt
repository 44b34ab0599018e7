// A grid over a range of positions: for each cell an edge that was put there. It is asked for an edge that is likely
// close to a point, from which a search may start; nothing depends on what it holds, so no contract says that.
// An edge that was put in for a vertex may be flipped since: it stays near, since a flip moves an edge within its two triangles.
// The row of cells has any contents and length: what is not in it is not stored, and a number past the edges in use is not answered.
#![tactic(auto)]

ghost use Rattle.std.specs.Prelude.{◌*◌, ◌<◌, ◌≤◌, length};

use math::Point;

// 2^levels columns and rows of cells. A column is 2^shift_x wide, from x on, and a row 2^shift_y high, from y on; so many
// vertices have had an edge put in.
#[derive(Clone, Copy)]
pub struct Grid {
    pub levels: u32,
    pub shift_x: u32,
    pub shift_y: u32,
    pub x: i32,
    pub y: i32,
    pub placed: u32,
}

// The least and the greatest coordinates of some positions.
#[derive(Clone, Copy)]
pub struct Range {
    pub least: Point,
    pub greatest: Point,
}

impl Range {
    pub fn at(p: Point) -> Range {
        Range {
            least: p,
            greatest: p,
        }
    }

    fn including(self, p: Point) -> Range {
        Range {
            least: Point {
                x: self.least.x.min(p.x),
                y: self.least.y.min(p.y),
            },
            greatest: Point {
                x: self.greatest.x.max(p.x),
                y: self.greatest.y.max(p.y),
            },
        }
    }

    // With the first positions of a row, so many of them.
    pub fn with(self, positions: &[i32], count: u32) -> Range
        requires { 2 * count ≤ length positions.now }
    {
        let mut all = self;
        for i in 0..count {
            all = all.including(dcel::position(positions, i));
        }
        all
    }
}

// How far a coordinate is past the least; 0 where it is below.
fn offset(least: i32, coordinate: i32) -> u32 {
    coordinate.max(least).abs_diff(least)
}

// How many binary digits a number has.
fn digits(n: u32) -> u32 {
    u32::BITS - n.leading_zeros()
}

// What a row holds at `at`; 0 past its end.
pub fn read(row: &[u32], at: usize) -> u32 {
    row.get(at).copied().unwrap_or(0)
}

// Nothing past its end.
pub fn write(row: &mut [u32], at: usize, v: u32) {
    if let Some(entry) = row.get_mut(at) {
        *entry = v;
    }
}

// The cell of a column and a row.
fn index(levels: u32, column: u64, row: u64) -> usize {
    let up = row << (levels % 16);
    ((up | column) % 4294967296) as usize
}

// Cell `at` of a grid with twice the columns and rows takes what the cell had that it is a quarter of, which is not behind it.
fn split_cell(cells: &mut [u32], levels: u32, at: usize) {
    let row = at >> (levels % 16 + 1);
    let column = at ^ (row << (levels % 16 + 1));
    let from = index(levels, column as u64 / 2, row as u64 / 2);
    let v = read(cells, from);
    write(cells, at, v);
}

// Each cell becomes four, so many of them, from the last one down.
fn split_cells(cells: &mut [u32], levels: u32, count: usize) {
    for at in (0..count).rev() {
        split_cell(cells, levels, at);
    }
}

impl Grid {
    // One cell over the range, and in it edge 0.
    pub fn over(cells: &mut [u32], range: Range) -> Grid {
        write(cells, 0, 0);
        let least = range.least;
        let greatest = range.greatest;
        Grid {
            levels: 0,
            shift_x: digits(offset(least.x, greatest.x)),
            shift_y: digits(offset(least.y, greatest.y)),
            x: least.x,
            y: least.y,
            placed: 0,
        }
    }

    fn cell(self, p: Point) -> usize {
        let column = offset(self.x, p.x) as u64 >> (self.shift_x % 64);
        let row = offset(self.y, p.y) as u64 >> (self.shift_y % 64);
        index(self.levels, column, row)
    }

    // What the cell of a position holds.
    pub fn at(self, cells: &[u32], p: Point) -> u32 {
        read(cells, self.cell(p))
    }

    // The cell of a position takes an edge.
    pub fn set(self, cells: &mut [u32], p: Point, u: u32) {
        write(cells, self.cell(p), u);
    }

    // Of so many edges in use one that is likely close to the point.
    pub fn near(self, cells: &[u32], edges: u32, p: Point) -> u32
        requires { 0 < edges }
        ensures { result < edges }
    {
        let u = self.at(cells, p);
        if u < edges { u } else { 0 }
    }

    // Whether there are four vertices to a cell, and the row and the range have room for four times the cells.
    fn is_crowded(self, length: usize) -> bool {
        if self.levels >= 12 || self.shift_x == 0 || self.shift_y == 0 {
            return false;
        }
        let cells: usize = 1 << (2 * self.levels);
        cells <= (self.placed as usize) / 4 && cells <= length / 4
    }

    // Four times the cells, where that is due.
    fn refined(self, cells: &mut [u32]) -> Grid {
        if !self.is_crowded(cells.len()) {
            return self;
        }
        let levels = self.levels % 16;
        split_cells(cells, levels, 4 << (2 * levels));
        Grid {
            levels: levels + 1,
            shift_x: self.shift_x.saturating_sub(1),
            shift_y: self.shift_y.saturating_sub(1),
            ..self
        }
    }

    // An edge of the vertex at p is put into its cell, and the grid is refined where that is due.
    pub fn put(self, cells: &mut [u32], p: Point, u: u32) -> Grid {
        self.set(cells, p, u);
        let more = Grid {
            placed: self.placed.saturating_add(1),
            ..self
        };
        more.refined(cells)
    }

    // The out edges of a mesh's vertices are put in, one of so many.
    pub fn put_vertices(
        self,
        cells: &mut [u32],
        positions: &[i32],
        outs: &[u32],
        vertices: u32,
        stride: u32,
    ) -> Grid
        requires { (2 * vertices ≤ length positions.now) × (0 < stride) }
    {
        let mut all = self;
        for v in (0..vertices).step_by(stride as usize) {
            let p = dcel::position(positions, v);
            all = all.put(cells, p, read(outs, v as usize) / 2);
        }
        all
    }
}
