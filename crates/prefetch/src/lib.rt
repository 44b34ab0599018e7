// What a block of insertions will read and write, read before the first of them. In a mesh larger than the processor's caches an
// insertion waits for memory over and over: for each triangle on the way to its point, and for each one whose circle has the point
// strictly inside, since its flips change those. The points of a block have nothing to do with each other; so here all of them are walked
// to side by side, and the triangles around each are read a ring at a time: such reads do not wait for each other. The edge that a walk
// has come to goes into the point's cell of the grid, from which the point's search starts. (Group prefetching, by plain reads.)
// Nothing is believed of any row, and no contract says what is found: an index past a row's end is not read, the tests are in f64 and may
// be out by their rounding, and a search may start from any edge.
#![tactic(auto)]

ghost use Rattle.std.specs.Prelude.{◌*◌, ◌≤◌, length};

use angle::Point2;
use dcel::handles::HalfEdgeEntry;
use grid::Grid;
use math::Point;

// The points of a block.
pub const BLOCK: usize = 32;

// The half-edges that are looked at together, six for each point.
const RING: usize = 192;

// The turns of the walks, and the rings of triangles around the points.
const TURNS: u32 = 8;

const RINGS: u32 = 4;

const ORIGIN: Point = Point { x: 0, y: 0 };

// A half-edge that is looked at for point `slot` of the block, and the far vertex of its triangle with its position, once they are read.
#[derive(Clone, Copy)]
struct Probe {
    slot: u32,
    edge: u32,
    far: u32,
    corner: Point,
}

const NO_PROBE: Probe = Probe {
    slot: 0,
    edge: 0,
    far: 0,
    corner: ORIGIN,
};

impl Probe {
    // What is read of the half-edge follows.
    fn look_at(&mut self, slot: u32, edge: u32) {
        self.slot = slot;
        self.edge = edge;
    }
}

// Half-edge e; zeros past the row's end.
fn half_edge(halves: &[u32], e: u32) -> HalfEdgeEntry {
    let i = 4 * (e as usize);
    if halves.len() <= i + 3 {
        return HalfEdgeEntry {
            next: 0,
            prev: 0,
            face: 0,
            origin: 0,
        };
    }
    HalfEdgeEntry {
        next: halves[i],
        prev: halves[i + 1],
        face: halves[i + 2],
        origin: halves[i + 3],
    }
}

fn prev(halves: &[u32], e: u32) -> u32 {
    grid::read(halves, 4 * (e as usize) + 1)
}

fn origin(halves: &[u32], e: u32) -> u32 {
    grid::read(halves, 4 * (e as usize) + 3)
}

// The position of vertex v; the origin past the row's end.
fn position(positions: &[i32], v: u32) -> Point {
    let i = 2 * (v as usize);
    if positions.len() <= i + 1 {
        return ORIGIN;
    }
    Point {
        x: positions[i],
        y: positions[i + 1],
    }
}

fn to_f64(p: Point) -> Point2 {
    angle::to_f64(p.x, p.y)
}

fn point(positions: &[i32], v: u32) -> Point2 {
    to_f64(position(positions, v))
}

// Point `slot` of the block; the origin past its end.
fn block_point(block: &[Point], slot: u32) -> Point2 {
    to_f64(block.get(slot as usize).copied().unwrap_or(ORIGIN))
}

fn minus(a: Point2, b: Point2) -> Point2 {
    Point2 {
        x: a.x - b.x,
        y: a.y - b.y,
    }
}

fn cross(a: Point2, b: Point2) -> f64 {
    a.x * b.y - a.y * b.x
}

fn square(a: Point2) -> f64 {
    a.x * a.x + a.y * a.y
}

// Whether p is right of the line from a to b.
fn is_right(a: Point2, b: Point2, p: Point2) -> bool {
    cross(minus(b, a), minus(p, a)) < 0.0
}

// Whether p is inside the circle of the triangle a, b, c.
fn is_inside(a: Point2, b: Point2, c: Point2, p: Point2) -> bool {
    let u = minus(a, p);
    let v = minus(b, p);
    let w = minus(c, p);
    0.0 < square(u) * cross(v, w) + square(v) * cross(w, u) + square(w) * cross(u, v)
}

// ---- the walks

// The first half of edge u; of some edge, where there is no such number.
fn first_half(u: u32) -> u32 {
    u.wrapping_mul(2)
}

// The points of the list, with a half-edge for each that is likely close.
fn find(
    cells: &[u32],
    grid: Grid,
    points: &[i32],
    list: &[u32],
    block: &mut [Point],
    probes: &mut [Probe],
)
    requires { (length list.now ≤ 32) × (length list.now ≤ length block.old)
        × (length list.now ≤ length probes.old) }
{
    for j in 0..list.len() {
        let p = position(points, list[j]);
        block[j] = p;
        let e = first_half(grid.at(cells, p));
        probes[j].look_at(j as u32, e);
    }
}

fn read_prevs(halves: &[u32], probes: &mut [Probe]) {
    for probe in probes {
        probe.far = prev(halves, probe.edge);
    }
}

// The far vertices, where `far` has the half-edges that they are the origins of.
fn read_origins(halves: &[u32], probes: &mut [Probe]) {
    for probe in probes {
        probe.far = origin(halves, probe.far);
    }
}

fn read_positions(positions: &[i32], probes: &mut [Probe]) {
    for probe in probes {
        probe.corner = position(positions, probe.far);
    }
}

// The far vertices and their positions, each kind of read for all half-edges before the next.
fn read_corners(positions: &[i32], halves: &[u32], probes: &mut [Probe]) {
    read_prevs(halves, probes);
    read_origins(halves, probes);
    read_positions(positions, probes);
}

// The vertices at both ends of each half-edge, in place of the far one: the one that it comes from, and in `ends` the other.
fn read_ends(halves: &[u32], probes: &mut [Probe], ends: &mut [Probe]) {
    for (probe, end) in probes.iter_mut().zip(ends) {
        probe.far = origin(halves, probe.edge);
        end.far = origin(halves, dcel::rev(probe.edge));
    }
}

// The half-edge or its reverse, whichever does not have the point on its right.
fn facing(e: u32, from: Point2, to: Point2, p: Point2) -> u32 {
    if is_right(from, to, p) {
        dcel::rev(e)
    } else {
        e
    }
}

// Of the half-edges, with the positions of their ends, those that face the block's points.
fn face_points(block: &[Point], ends: &[Probe], probes: &mut [Probe]) {
    for ((probe, end), p) in probes.iter_mut().zip(ends).zip(block) {
        probe.edge = facing(
            probe.edge,
            to_f64(probe.corner),
            to_f64(end.corner),
            to_f64(*p),
        );
    }
}

// The half-edges from which the walks start, each kind of read for all of them before the next.
fn face_block(positions: &[i32], halves: &[u32], block: &[Point], probes: &mut [Probe])
    requires { length probes.old ≤ 32 }
{
    let mut all = [NO_PROBE; BLOCK];
    let ends = &mut all[..probes.len()];
    read_ends(halves, probes, ends);
    read_positions(positions, probes);
    read_positions(positions, ends);
    face_points(block, ends, probes);
}

// The next half-edge of a walk to p, or the same where the triangle holds the point or is the outer face.
fn onward(positions: &[i32], halves: &[u32], probe: Probe, p: Point2) -> u32 {
    let e = probe.edge;
    let far = to_f64(probe.corner);
    let half = half_edge(halves, e);
    let over_prev = dcel::rev(half.prev);
    let over_next = dcel::rev(half.next);
    let from = point(positions, half.origin);
    let to = point(positions, origin(halves, dcel::rev(e)));
    let before = is_right(far, from, p);
    let after = is_right(to, far, p);
    let on = if before { over_prev } else { over_next };
    if (before | after) & (half.face != 0) {
        on
    } else {
        e
    }
}

// A turn of the walks: where each has come to, and how many go on, which stand first then.
fn turn(
    positions: &[i32],
    halves: &[u32],
    block: &[Point],
    probes: &mut [Probe],
    start: &mut [u32],
) -> usize
    ensures { result ≤ length probes.old }
{
    let mut live: usize = 0;
    for j in 0..probes.len() {
        let probe = probes[j];
        let p = block_point(block, probe.slot);
        let edge = onward(positions, halves, probe, p);
        grid::write(start, probe.slot as usize, edge);
        probes[live].look_at(probe.slot, edge);
        live += usize::from(edge != probe.edge);
    }
    live
}

fn walk(
    positions: &[i32],
    halves: &[u32],
    block: &[Point],
    probes: &mut [Probe],
    start: &mut [u32],
) {
    let mut live = probes.len();
    for _ in 0..TURNS {
        read_corners(positions, halves, &mut probes[..live]);
        live = turn(positions, halves, block, &mut probes[..live], start);
    }
}

// All walks: the points go into the block, and where their walks come to into `start`.
fn walk_block(
    positions: &[i32],
    halves: &[u32],
    cells: &[u32],
    grid: Grid,
    points: &[i32],
    list: &[u32],
    block: &mut [Point],
    start: &mut [u32],
)
    requires { (length list.now ≤ 32) × (length list.now ≤ length block.old) }
{
    let mut all = [NO_PROBE; BLOCK];
    let probes = &mut all[..list.len()];
    find(cells, grid, points, list, block, probes);
    face_block(positions, halves, block, probes);
    walk(positions, halves, block, probes, start);
}

// ---- the triangles around

// Over the three edges of each point's triangle, and what the faces row holds of it.
fn first_ring(halves: &[u32], faces: &[u32], start: &[u32], probes: &mut [Probe]) -> u32
    requires { (length start.now ≤ 32) × (3 * length start.now ≤ length probes.old) }
{
    let mut seen: u32 = 0;
    for j in 0..start.len() {
        let e = start[j];
        let half = half_edge(halves, e);
        let slot = j as u32;
        probes[3 * j].look_at(slot, dcel::rev(e));
        probes[3 * j + 1].look_at(slot, dcel::rev(half.next));
        probes[3 * j + 2].look_at(slot, dcel::rev(half.prev));
        seen ^= grid::read(faces, half.face as usize);
    }
    seen
}

// Whether the circle of the probe's triangle has the point inside.
fn breaks(positions: &[i32], halves: &[u32], probe: Probe, p: Point2) -> bool {
    let e = probe.edge;
    let half = half_edge(halves, e);
    let from = point(positions, half.origin);
    let to = point(positions, origin(halves, dcel::rev(e)));
    is_inside(from, to, to_f64(probe.corner), p) & (half.face != 0)
}

// How many of the half-edges have a triangle that will be changed; they stand first then.
fn changed(positions: &[i32], halves: &[u32], block: &[Point], probes: &mut [Probe]) -> usize
    ensures { result ≤ length probes.old }
{
    let mut count: usize = 0;
    for j in 0..probes.len() {
        let probe = probes[j];
        let p = block_point(block, probe.slot);
        probes[count].look_at(probe.slot, probe.edge);
        count += usize::from(breaks(positions, halves, probe, p));
    }
    count
}

// Over the two other edges of each of the first changed triangles, so many, from the last down, and what the rows of faces and out edges
// hold of it.
fn next_ring(outs: &[u32], halves: &[u32], faces: &[u32], probes: &mut [Probe], count: usize) -> u32
    requires { 2 * count ≤ length probes.old }
{
    let mut seen: u32 = 0;
    for j in (0..count).rev() {
        let probe = probes[j];
        let half = half_edge(halves, probe.edge);
        probes[2 * j].look_at(probe.slot, dcel::rev(half.next));
        probes[2 * j + 1].look_at(probe.slot, dcel::rev(half.prev));
        seen ^= grid::read(faces, half.face as usize);
        seen ^= grid::read(outs, half.origin as usize);
        seen ^= grid::read(outs, origin(halves, dcel::rev(probe.edge)) as usize);
    }
    seen
}

// All rings but the first, whose half-edges are the first of the probes, so many.
fn rings(
    positions: &[i32],
    outs: &[u32],
    halves: &[u32],
    faces: &[u32],
    block: &[Point],
    probes: &mut [Probe],
    count: usize,
) -> u32
    requires { (count ≤ 192) × (192 ≤ length probes.old) }
{
    let mut seen: u32 = 0;
    let mut left = count;
    for _ in 0..RINGS {
        let ring = &mut probes[..left];
        read_corners(positions, halves, ring);
        let broken = changed(positions, halves, block, ring);
        // as many as have room when they are doubled
        let kept = broken.min(RING / 2);
        seen ^= next_ring(outs, halves, faces, probes, kept);
        left = 2 * kept;
    }
    seen
}

// All rings: what the rows of faces and out edges hold of the triangles.
fn read_around(
    positions: &[i32],
    outs: &[u32],
    halves: &[u32],
    faces: &[u32],
    block: &[Point],
    start: &[u32],
) -> u32
    requires { length start.now ≤ 32 }
{
    let mut probes = [NO_PROBE; RING];
    let first = first_ring(halves, faces, start, &mut probes);
    let rest = rings(
        positions,
        outs,
        halves,
        faces,
        block,
        &mut probes,
        3 * start.len(),
    );
    first ^ rest
}

// ---- the whole

// Where the walks have come to.
fn store(cells: &mut [u32], grid: Grid, block: &[Point], start: &[u32]) {
    for (p, e) in block.iter().zip(start) {
        grid.set(cells, *p, *e / 2);
    }
}

// For the points whose numbers the list has, of a block at most.
pub fn prefetch(
    positions: &[i32],
    outs: &[u32],
    halves: &[u32],
    faces: &[u32],
    cells: &mut [u32],
    grid: Grid,
    points: &[i32],
    list: &[u32],
)
    requires { length list.now ≤ 32 }
{
    let mut block = [ORIGIN; BLOCK];
    let mut all = [0u32; BLOCK];
    let start = &mut all[..list.len()];
    walk_block(
        positions, halves, cells, grid, points, list, &mut block, start,
    );
    let seen = read_around(positions, outs, halves, faces, &block, start);
    // no row holds that number; a compiler does not know this, and so leaves nothing unread
    if seen == u32::MAX {
        return;
    }
    store(cells, grid, &block, start);
}
