// A new vertex enters the ring (bulk_load.rs, `Hull::insert`): the nodes that its two edges cover go, one is made for
// it, the buckets follow; and the number of buckets (`adjust_bucket_size_if_necessary`). Over the rows of the ring
// alone; what it does to the ring of a mesh is in crate `hull`.
#![tactic(auto)]

ghost use Rattle.std.specs.Prelude.{◌≡◌, ◌+◌, ◌-◌, ◌<◌, ◌≤◌, ◌^◌, length};
ghost use Rattle.angle.specs.Angle.{IsAngle, turns};
ghost use Rattle.segment.specs.Bucket.{Buckets, ceil_of};
ghost use Rattle.dcel.specs.Rows.{row_of};
ghost use Rattle.ring.specs.Ring.{full_turn};
ghost use Rattle.ring.specs.Chain.{is_fit};
ghost use Rattle.ring.specs.Resize.{adjusted_buckets};
ghost use Rattle.ring.specs.Free.{Taken};
ghost use Rattle.ring_rows.specs.Rows.{nodes_of};
ghost use Rattle.ring_insert.specs.Insert.{ToRelease, ReleasedTo, ToChoose, Chosen, place_nodes, ToPlace, Rebuckets, ToInsert, InsertedRows, ToAdjust, Adjusted};
ghost use Rattle.ring_insert.specs.Retire.{ToRetire, Retired};

use ring_rows::{Hull, NO_EDGE, Node};

// The node of the right angle, and how many are freed now.
#[derive(Clone, Copy)]
pub struct Released {
    pub right: u32,
    pub freed: u32,
}

// A node that is not in use, how many are freed then, and how many were ever in use.
#[derive(Clone, Copy)]
pub struct Vacant {
    pub node: u32,
    pub freed: u32,
    pub nodes: u32,
}

// The nodes that an insert names: the right one, the new one, the one before it, and the first of the two that stand for the new edges.
#[derive(Clone, Copy)]
pub struct Choice {
    pub right: u32,
    pub node: u32,
    pub before: u32,
    pub start: u32,
    pub freed: u32,
    pub nodes: u32,
}

// Whether the boundary that a step would leave has a sound ring: fate 4 otherwise. `chain` is the number of nodes among the chain's edges.
pub fn is_fit(left: f64, middle: f64, right: f64, chain: u32, size: u32) -> bool
    requires { IsAngle left × IsAngle middle × IsAngle right × (3 + chain < 2 ^ 32) × (size + 2 < 2 ^ 32) }
    ensures { result ≡ is_fit full_turn (turns left) (turns middle) (turns right) chain size }
{
    !angle::equal(middle, right)
        && !segment::is_wide(left, middle)
        && !segment::is_wide(middle, right)
        && 3 + chain <= size + u32::from(!angle::equal(left, middle)) + 1
}

// The nodes strictly between `first` and the node of an angle, going right, are freed.
fn release(nodes: &[Node], freed: &mut [u32], top: u32, first: u32, angle: f64) -> Released
    requires { ToRelease nodes.now freed.old top first angle }
    ensures { ReleasedTo (nodes_of nodes.now) freed.old freed.new top first
        (turns angle) result.right result.freed }
{
    let mut right = ring_rows::load(nodes, first).right;
    let mut node = ring_rows::load(nodes, right);
    let mut n = top;
    while !angle::equal(node.angle, angle) {
        freed[n as usize] = right;
        n += 1;
        right = node.right;
        node = ring_rows::load(nodes, right);
    }
    Released { right, freed: n }
}

// `get_next_index`: the last one freed, or else the next number.
fn get_next_index(freed: &[u32], top: u32, nodes: u32) -> Vacant
    requires { (top ≤ length freed.now) × (nodes + 1 < 2 ^ 32) }
    ensures { Taken (row_of freed.now) top nodes result.node result.freed result.nodes }
{
    match top.checked_sub(1) {
        Some(i) => Vacant {
            node: freed[i as usize],
            freed: i,
            nodes,
        },
        None => Vacant {
            node: nodes,
            freed: 0,
            nodes: nodes + 1,
        },
    }
}

// Which nodes an insert frees, takes and links. `left` is the left node, which goes if its angle is the new one.
fn choose(
    nodes: &[Node],
    freed: &mut [u32],
    hull: Hull,
    left: u32,
    goes: bool,
    angle: f64,
) -> Choice
    requires { ToChoose nodes.now freed.old hull left angle }
    ensures { Chosen (nodes_of nodes.now) freed.old freed.new hull left goes (turns angle) result }
{
    let gone = release(nodes, freed, hull.freed, left, angle);
    let vacant = get_next_index(freed, gone.freed, hull.nodes);
    let stays = Choice {
        right: gone.right,
        node: vacant.node,
        before: left,
        start: left,
        freed: vacant.freed,
        nodes: vacant.nodes,
    };
    if !goes {
        return stays;
    }
    freed[vacant.freed as usize] = left;
    Choice {
        before: ring_rows::load(nodes, left).left,
        start: vacant.node,
        freed: vacant.freed + 1,
        ..stays
    }
}

// The stores: the new node, the links to it, and the left node's new edge if it stays.
fn place(nodes: &mut [Node], choice: Choice, leftedge: u32, rightedge: u32, middle: f64)
    requires { ToPlace nodes.old choice }
    ensures { nodes_of nodes.new ≡ place_nodes (nodes_of nodes.old) choice leftedge rightedge middle }
{
    ring_rows::store(
        nodes,
        choice.node,
        Node {
            angle: middle,
            edge: rightedge,
            left: choice.before,
            right: choice.right,
        },
    );
    ring_rows::set_right(nodes, choice.before, choice.node);
    ring_rows::set_left(nodes, choice.right, choice.node);
    if choice.start != choice.node {
        ring_rows::set_edge(nodes, choice.start, leftedge);
    }
}

// The nodes on the stack from `from` up to `to` lose their edges, by which `find` knows that they are not in the ring.
fn retire(nodes: &mut [Node], freed: &[u32], from: u32, to: u32)
    requires { ToRetire nodes.old freed.now from to }
    ensures { Retired (nodes_of nodes.old) (nodes_of nodes.new) (row_of freed.now) from to }
{
    let gone = &freed[from as usize..to as usize];
    for node in gone {
        ring_rows::set_edge(nodes, *node, NO_EDGE);
    }
}

// The buckets of the two nodes.
fn update_buckets(
    buckets: &mut [u32],
    count: usize,
    left: f64,
    middle: f64,
    right: f64,
    start: u32,
    node: u32,
)
    requires { IsAngle left × IsAngle middle × IsAngle right × Buckets count × (count ≤ length buckets.old) }
    ensures { Rebuckets buckets.old buckets.new count (ceil_of (turns left) count)
        (ceil_of (turns middle) count) (ceil_of (turns right) count) start node }
{
    let first = segment::ceiled_bucket(left, count);
    let second = segment::ceiled_bucket(middle, count);
    let third = segment::ceiled_bucket(right, count);
    ring_rows::update_bucket_segment(buckets, count, first, second, start);
    ring_rows::update_bucket_segment(buckets, count, second, third, node);
}

// The number of buckets for a ring of `size` nodes.
#[tactic(auto, unfolding(ring::specs::Resize::adjusted_buckets))]
fn adjusted_buckets(count: u32, size: u32) -> u32
    requires { (count ≤ 2 ^ 20) × (size ≤ 2 ^ 20) }
    ensures { result ≡ adjusted_buckets count size }
{
    if count * 2 < size {
        count * 2
    } else if size * 4 < count && 16 < count && 16 <= count / 4 {
        count / 4
    } else {
        count
    }
}

pub fn adjust_bucket_size_if_necessary(nodes: &[Node], buckets: &mut [u32], hull: Hull) -> Hull
    requires { ToAdjust nodes.now buckets.old hull }
    ensures { Adjusted nodes.now buckets.old buckets.new hull result }
{
    let size = hull.size();
    let count = adjusted_buckets(hull.buckets, size);
    if count == hull.buckets {
        return hull;
    }
    let start = buckets[0];
    ring_rows::initialize_buckets(nodes, buckets, count as usize, start, size);
    Hull {
        buckets: count,
        ..hull
    }
}

// `insert`: a vertex at the angle `middle` has entered the boundary between those of the angles `left` and `right`,
// with the edges `leftedge` to it and `rightedge` from it. The left node is looked for from `near` on; any number will do.
pub fn insert(
    nodes: &mut [Node],
    freed: &mut [u32],
    buckets: &mut [u32],
    hull: Hull,
    near: u32,
    left: f64,
    middle: f64,
    right: f64,
    leftedge: u32,
    rightedge: u32,
) -> Hull
    requires { ToInsert nodes.old freed.old buckets.old hull left middle right }
    ensures { InsertedRows nodes.old freed.old buckets.old
        nodes.new freed.new buckets.new hull left middle right leftedge rightedge result }
{
    let found = ring_rows::find_left(nodes, buckets, hull, near, left);
    let goes = angle::equal(left, middle);
    let choice = choose(nodes, freed, hull, found, goes, right);
    place(nodes, choice, leftedge, rightedge, middle);
    update_buckets(
        buckets,
        hull.buckets as usize,
        left,
        middle,
        right,
        choice.start,
        choice.node,
    );
    // The first node that was pushed may stand one below the old top, which `get_next_index` may have taken.
    let from = hull.freed.saturating_sub(1);
    retire(nodes, freed, from, choice.freed);
    let bucket = segment::floored_bucket(middle, hull.buckets as usize);
    ring_rows::set_finger(freed, choice.freed, bucket, choice.node);
    Hull {
        nodes: choice.nodes,
        freed: choice.freed,
        ..hull
    }
}
