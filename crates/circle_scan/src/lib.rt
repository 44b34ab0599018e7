// Edges that keep the circle rule, a block of them at a time: for the closing pass, most of whose edges do. An edge's far vertices stand
// with other edges, anywhere in the row of half-edges, and in a large mesh each of them waits for memory. So those of a block are read
// first: these reads do not wait for each other, as they do where a circle test comes between them. In a large mesh so are the positions of
// the block's vertices. What is answered is `Unbroken` of specs/Scan.antt.
#![tactic(auto)]

ghost use Rattle.std.specs.Prelude.{List, ◌≡◌, ℕ, ◌+◌, ◌*◌, ◌≤◌, length};
ghost use Rattle.circle_test.specs.GoodRows.{CircleReady};
ghost use Rattle.dcel.specs.Rows.{halves_of, links_of, position_of};
ghost use Rattle.mesh.specs.Circle.{breaks_circle};
ghost use Rattle.circle_scan.specs.Scan.{ScanReady, FarsReady, FarsRead, BlockReady, Unbroken};

// The edges of a block.
const BLOCK: u32 = 64;

// Their far vertices, one for each half-edge.
const FARS: usize = 128;

// From so many edges on a mesh is large: its positions are past what a processor's second cache holds.
const LARGE: u32 = 196608;

// The origin of prev for n half-edges from e on.
fn read_fars(halves: &[u32], fars: &mut [u32], e: u32, n: u32)
    requires { FarsReady halves.now e n × (n ≤ length fars.old) }
    ensures { FarsRead halves.now e n fars.new }
{
    for k in 0..n {
        let p = dcel::prev(halves, e + k);
        fars[k as usize] = dcel::origin(halves, p);
    }
}

// The first coordinate of vertex v; 0 past the row's end.
fn coordinate(positions: &[i32], v: u32) -> i32 {
    positions.get(2 * v as usize).copied().unwrap_or(0)
}

// The positions of n far vertices, and of the origins of as many half-edges from e on, are read: nothing is said of them.
fn read_positions(positions: &[i32], halves: &[u32], fars: &[u32], e: u32, n: u32) -> i32
    requires { FarsReady halves.now e n × (n ≤ length fars.now) }
{
    let mut seen: i32 = 0;
    for k in 0..n {
        seen ^= coordinate(positions, fars[k as usize]);
        seen ^= coordinate(positions, dcel::origin(halves, e + k));
    }
    seen
}

// The same in a large mesh. The answer is always true, since coordinates in range do not come to that number.
// A compiler does not know this, and so leaves nothing unread; nothing depends on it.
fn are_read(positions: &[i32], halves: &[u32], fars: &[u32], e: u32, n: u32, edges: u32) -> bool
    requires { FarsReady halves.now e n × (n ≤ length fars.now) }
{
    edges < LARGE || read_positions(positions, halves, fars, e, n) != i32::MIN
}

// `should_flip` of edge u, for whose halves the origins of prev are c and d.
fn breaks_circle(positions: &[i32], halves: &[u32], u: u32, c: u32, d: u32) -> bool
    requires { CircleReady positions.now halves.now u
        × (c ≡ (halves_of halves.now).origin ((halves_of halves.now).prev (2 * u)))
        × (d ≡ (halves_of halves.now).origin ((halves_of halves.now).prev (2 * u + 1))) }
    ensures { (o a : List ℕ) → result ≡ breaks_circle (links_of o halves.now a) (position_of positions.now) u }
{
    let e = 2 * u;
    let t = e + 1;
    if dcel::face(halves, e) == 0 || dcel::face(halves, t) == 0 {
        return false;
    }
    let a = dcel::origin(halves, e);
    let b = dcel::origin(halves, t);
    circle_test::is_inside(positions, a, b, c, d)
}

// From u up to `end`, as far as no edge breaks the rule.
fn unbroken_in_block(positions: &[i32], halves: &[u32], fars: &[u32], u: u32, end: u32) -> u32
    requires { BlockReady positions.now halves.now fars.now u end }
    ensures { Unbroken positions.now halves.now u end result }
{
    for v in u..end {
        let k = 2 * (v - u) as usize;
        if breaks_circle(positions, halves, v, fars[k], fars[k + 1]) {
            return v;
        }
    }
    end
}

// Where the block that starts with edge u ends.
fn block_end(u: u32, edges: u32) -> u32
    requires { u ≤ edges }
    ensures { (u ≤ result) × (result ≤ edges) × (result ≤ u + 64) }
{
    u + BLOCK.min(edges - u)
}

// Edge u is the first of a block, or nothing is looked at: the edges of the block, as far as none breaks the rule.
pub fn unbroken(positions: &[i32], halves: &[u32], u: u32, edges: u32) -> u32
    requires { ScanReady positions.now halves.now edges × (u ≤ edges) }
    ensures { Unbroken positions.now halves.now u edges result }
{
    if u % BLOCK != 0 {
        return u;
    }
    let end = block_end(u, edges);
    let mut fars = [0u32; FARS];
    read_fars(halves, &mut fars, 2 * u, 2 * (end - u));
    if !are_read(positions, halves, &fars, 2 * u, 2 * (end - u), edges) {
        return u;
    }
    unbroken_in_block(positions, halves, &fars, u, end)
}
