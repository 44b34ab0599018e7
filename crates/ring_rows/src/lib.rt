// The ring in the rows that the caller lends (bulk_load.rs, `Hull`, `Node`): a row of node records, each its angle, its edge,
// its left and its right node, 24 bytes. `load`, `store`, the three relinks and `clear_nodes` are all that touches the
// row; everything else works with `Node` by value.
#![tactic(auto)]

ghost use Rattle.std.specs.Prelude.{◌≡◌, ℕ, ◌+◌, ◌%◌, ◌<◌, ◌≤◌, length, replicate, T, IfSome};
ghost use Rattle.std.specs.Bool.{OnTrue};
ghost use Rattle.sums.specs.Put.{put};
ghost use Rattle.angle.specs.Angle.{IsAngle, valid_angle, turns};
ghost use Rattle.segment.specs.Bucket.{Buckets, floor_of, width};
ghost use Rattle.ring.specs.Insert.{Bucketed};
ghost use Rattle.dcel.specs.Rows.{row_of};
ghost use Rattle.ring_rows.specs.Rows.{zero_node, nodes_of, with_edge, with_left, with_right, RingHeld, size_of, Got, Updated, right_node_of, angle_of, NodeBuckets, NodeUpdated, ToFill};
ghost use Rattle.ring_rows.specs.Find.{node_holds, InUse, ToTest, ToWalk, WalkedBoth, ToFind, NodeAt, ToWalkLeft, WalkedLeft};

use segment::Segment;

#[repr(C)]
#[derive(Clone, Copy)]
pub struct Node {
    pub angle: f64,
    pub edge: u32,
    pub left: u32,
    pub right: u32,
}

// What a ring is beside its rows: how many buckets there are, how many nodes were ever in use, and how many of those are freed.
#[derive(Clone, Copy)]
pub struct Hull {
    pub buckets: u32,
    pub nodes: u32,
    pub freed: u32,
}

impl Hull {
    // How many nodes are in the ring.
    pub fn size(self) -> u32
        requires { self.freed ≤ self.nodes }
        ensures { result ≡ size_of self }
    {
        self.nodes - self.freed
    }
}

// A node, its edge, and how many nodes were passed after the first on the way to it.
#[derive(Clone, Copy)]
pub struct Found {
    pub node: u32,
    pub edge: u32,
    pub passed: u32,
}

// No half-edge has this number: it is the edge of each node that is freed. A number and no `Option`, since C lends the row of nodes, and
// fithmoul.h gives a node's 24 bytes.
pub const NO_EDGE: u32 = 4294967295;

// Two nodes to walk from: on to the right from the one, on to the left from the other.
#[derive(Clone, Copy)]
pub struct Handles {
    pub right: u32,
    pub left: u32,
}

pub fn load(nodes: &[Node], i: u32) -> Node
    requires { i < length nodes.now }
    ensures { result ≡ nodes_of nodes.now i }
{
    nodes[i as usize]
}

pub fn store(nodes: &mut [Node], i: u32, node: Node)
    requires { i < length nodes.old }
    ensures { nodes_of nodes.new ≡ put (nodes_of nodes.old) i node }
{
    nodes[i as usize] = node;
}

// The three relinks. They stay three: one with a closure for the field would be no shorter, and each has its own word in the contracts.
pub fn set_edge(nodes: &mut [Node], i: u32, edge: u32)
    requires { i < length nodes.old }
    ensures { nodes_of nodes.new
        ≡ put (nodes_of nodes.old) i (with_edge (nodes_of nodes.old i) edge) }
{
    nodes[i as usize].edge = edge;
}

pub fn set_left(nodes: &mut [Node], i: u32, left: u32)
    requires { i < length nodes.old }
    ensures { nodes_of nodes.new
        ≡ put (nodes_of nodes.old) i (with_left (nodes_of nodes.old i) left) }
{
    nodes[i as usize].left = left;
}

pub fn set_right(nodes: &mut [Node], i: u32, right: u32)
    requires { i < length nodes.old }
    ensures { nodes_of nodes.new
        ≡ put (nodes_of nodes.old) i (with_right (nodes_of nodes.old i) right) }
{
    nodes[i as usize].right = right;
}

// Whether the segment of node i holds an angle.
fn contains_angle(nodes: &[Node], i: u32, angle: f64) -> bool
    requires { ToTest nodes.now i angle }
    ensures { result ≡ node_holds (nodes_of nodes.now) (turns angle) i }
{
    let node = load(nodes, i);
    let next = load(nodes, node.right);
    Segment::new(node.angle, next.angle).contains_angle(angle)
}

// The node whose segment holds an angle, from the node of the angle's bucket on to the right.
pub fn get(nodes: &[Node], buckets: &[u32], hull: Hull, angle: f64) -> Found
    requires { RingHeld nodes.now buckets.now hull × T (valid_angle angle) }
    ensures { Got (nodes_of nodes.now) (size_of hull)
        (row_of buckets.now (floor_of (turns angle) hull.buckets)) (turns angle) result }
{
    let bucket = segment::floored_bucket(angle, hull.buckets as usize);
    let mut handle = buckets[bucket];
    let mut passed: u32 = 0;
    while !contains_angle(nodes, handle, angle) {
        handle = load(nodes, handle).right;
        passed += 1;
    }
    Found {
        node: handle,
        edge: load(nodes, handle).edge,
        passed,
    }
}

// The node whose segment holds an angle, looked for from two nodes in turn: from the one on to the right, from the other to the left. At
// most `limit` turns.
fn walk_both(nodes: &[Node], from: Handles, angle: f64, limit: u32) -> Option<u32>
    requires { ToWalk nodes.now from.right from.left angle }
    ensures { WalkedBoth (nodes_of nodes.now) from.right (turns angle) limit result }
{
    let mut right = from.right;
    let mut left = from.left;
    for _ in 0..limit {
        if contains_angle(nodes, right, angle) {
            return Some(right);
        }
        if contains_angle(nodes, left, angle) {
            return Some(left);
        }
        right = load(nodes, right).right;
        left = load(nodes, left).left;
    }
    None
}

// The node of the bucket after one of `count`, a power of two; after the last comes the first.
fn node_after(buckets: &[u32], count: usize, bucket: usize) -> u32
    requires { (count ≤ length buckets.now) × Buckets count × (bucket < count) }
    ensures { result ≡ row_of buckets.now ((bucket + 1) % count) }
{
    buckets[(bucket + 1) & (count - 1)]
}

// Whether a node, which may be any number, is in the ring: one that was ever in use and has an edge is.
fn is_in_ring(nodes: &[Node], hull: Hull, i: u32) -> bool
    requires { hull.nodes ≤ length nodes.now }
    ensures { OnTrue result (InUse (nodes_of nodes.now) hull.nodes i) }
{
    i < hull.nodes && load(nodes, i).edge != NO_EDGE
}

// Where a bucket's finger stands, the node that was put into the ring last in it: at the far end of the row of freed nodes, behind their
// stack, if the row is long enough.
fn finger_place(freed: &[u32], bucket: usize) -> Option<usize>
    ensures { IfSome result (λ i. i < length freed.now) }
{
    freed.len().checked_sub(bucket)?.checked_sub(1)
}

// A bucket's finger, if it is still in the ring. The row is lent with any contents and the stack may grow over a finger, so nothing is
// believed of what stands there.
fn finger(nodes: &[Node], freed: &[u32], hull: Hull, bucket: usize) -> Option<u32>
    requires { hull.nodes ≤ length nodes.now }
    ensures { IfSome result (InUse (nodes_of nodes.now) hull.nodes) }
{
    let node = freed[finger_place(freed, bucket)?];
    is_in_ring(nodes, hull, node).then_some(node)
}

// A bucket's finger is put down, unless the stack of `top` freed nodes needs its place.
pub fn set_finger(freed: &mut [u32], top: u32, bucket: usize, node: u32)
    ensures { (j : ℕ) → j < top → row_of freed.new j ≡ row_of freed.old j }
{
    if let Some(place) = finger_place(freed, bucket) {
        if top as usize <= place {
            freed[place] = node;
        }
    }
}

// The node whose segment holds an angle, as `get` finds it, without a count. Where angles crowd, one bucket has thousands of nodes: so it
// walks from both ends of the bucket, and after a few turns from its finger.
pub fn find(nodes: &[Node], freed: &[u32], buckets: &[u32], hull: Hull, angle: f64) -> u32
    requires { ToFind nodes.now buckets.now hull × T (valid_angle angle) }
    ensures { NodeAt nodes.now buckets.now hull (turns angle) result }
{
    let bucket = segment::floored_bucket(angle, hull.buckets as usize);
    let first = buckets[bucket];
    if contains_angle(nodes, first, angle) {
        return first;
    }
    let ends = Handles {
        right: load(nodes, first).right,
        left: node_after(buckets, hull.buckets as usize, bucket),
    };
    if let Some(near) = walk_both(nodes, ends, angle, 8) {
        return near;
    }
    let from = finger(nodes, freed, hull, bucket).map_or(
        ends,
        |node| Handles {
            right: node,
            left: node,
        },
    );
    // A walk of as many turns as the ring has nodes meets the one of the angle.
    walk_both(nodes, from, angle, hull.size()).unwrap()
}

// The node of an angle, looked for from the node `near` on to the left, for as many turns as the ring has nodes. Nothing is found where
// `near` is not in the ring.
fn walk_left(nodes: &[Node], hull: Hull, near: u32, angle: f64) -> Option<u32>
    requires { ToWalkLeft nodes.now hull angle }
    ensures { WalkedLeft nodes.now hull (turns angle) result }
{
    if !is_in_ring(nodes, hull, near) {
        return None;
    }
    let mut i = near;
    for _ in 0..hull.size() {
        let node = load(nodes, i);
        if angle::equal(node.angle, angle) {
            return Some(i);
        }
        i = node.left;
    }
    None
}

// The node whose segment holds an angle, where a node of this very angle is thought to stand at `near` or a few nodes to its left. Nothing
// is believed of `near`: where the walk does not meet such a node, `get` finds the answer.
pub fn find_left(nodes: &[Node], buckets: &[u32], hull: Hull, near: u32, angle: f64) -> u32
    requires { ToFind nodes.now buckets.now hull × IsAngle angle }
    ensures { NodeAt nodes.now buckets.now hull (turns angle) result }
{
    match walk_left(nodes, hull, near, angle) {
        Some(node) => node,
        None => get(nodes, buckets, hull, angle).node,
    }
}

// v to the buckets from `from` up to `to`, of `count`, past the last one on at the first where `to` is less.
pub fn update_bucket_segment(buckets: &mut [u32], count: usize, from: usize, to: usize, v: u32)
    requires { (count ≤ length buckets.old) × (from ≤ count) × (to ≤ count) }
    ensures { Updated buckets.old buckets.new count from to v }
{
    if from <= to {
        buckets[from..to].fill(v);
    } else {
        buckets[from..count].fill(v);
        buckets[..to].fill(v);
    }
}

// The buckets whose points the segment of node i holds. Answers the node after it.
fn update_node_buckets(nodes: &[Node], buckets: &mut [u32], count: usize, i: u32) -> u32
    requires { NodeBuckets nodes.now buckets.old count i }
    ensures { NodeUpdated (nodes_of nodes.now) buckets.old buckets.new count i result }
{
    let from = load(nodes, i);
    let to = load(nodes, from.right);
    let first = segment::ceiled_bucket(from.angle, count);
    let last = segment::ceiled_bucket(to.angle, count);
    update_bucket_segment(buckets, count, first, last, i);
    from.right
}

// Every bucket's node, from the ring's own nodes, of which there are `size` from `start` on.
pub fn initialize_buckets(nodes: &[Node], buckets: &mut [u32], count: usize, start: u32, size: u32)
    requires { ToFill nodes.now buckets.old count start size }
    ensures { Bucketed (right_node_of (nodes_of nodes.now)) (angle_of (nodes_of nodes.now))
        (row_of buckets.new) count (width count) start size }
{
    let mut i = start;
    for _ in 0..size {
        i = update_node_buckets(nodes, buckets, count, i);
    }
}

// The row of nodes, all of zeros; the other rows are cleared by `dcel::clear`.
pub fn clear_nodes(nodes: &mut [Node])
    ensures { nodes.new ≡ replicate (length nodes.old) zero_node }
{
    nodes.fill(Node {
        angle: 0.0,
        edge: 0,
        left: 0,
        right: 0,
    });
}
