// The pending list of edges in a row that the caller lends, with its length by value. A length past the row's end says
// that a push would have overfilled the row.
// Where the list is long, a set of its entries answers whether an edge is in it: bits in the words at the row's end, counted from there,
// while the list leaves them free. Where it does not, or no longer, the entries are looked through.
#![tactic(auto)]

ghost use Rattle.std.specs.Prelude.{◌≡◌, true, false, List, ◌∷◌, ℕ, ◌+◌, ◌-◌, ◌/◌, ◌%◌, ◌^◌, ◌<◌, ◌≤◌, ltb, length, get_or, set};
ghost use Rattle.pending.specs.Pending.{pending_of, contains, push_if_not_contained, Holds};
ghost use Rattle.pending.specs.Set.{set_words, word_at, is_marked, Marks, SetOf, Becomes, ToPop, LastTaken, Cleared, MarkedTo};

// The list's value: its length; how many entries may be looked through before a set of them is made; and whether there is one.
// `looks` and `set` stand side by side, as `SetOf` of specs/Set.antt and `plain` of the crate legalize have them.
#[derive(Clone, Copy)]
pub struct PendingList {
    pub length: usize,
    pub looks: usize,
    pub set: bool,
}

// The entry that was taken from the list, and the list without it.
#[derive(Clone, Copy)]
pub struct Taken {
    pub entry: u32,
    pub list: PendingList,
}

// Lists shorter than this are looked through at once.
const FEW: usize = 16;

// 01: "at least 8 pending entries". Whether a row of this length is shorter.
pub fn is_short(length: usize) -> bool
    ensures { result ≡ ltb length 8 }
{
    length < 8
}

// The last of n entries.
pub fn last(pending: &[u32], n: usize) -> u32
    requires { (0 < n) × (n ≤ length pending.now) }
    ensures { pending_of pending.now n ≡ result ∷ pending_of pending.now (n - 1) }
{
    pending[n - 1]
}

// Whether x is among n entries.
pub fn contains(pending: &[u32], n: usize, x: u32) -> bool
    requires { n ≤ length pending.now }
    ensures { result ≡ contains x (pending_of pending.now n) }
{
    pending[..n].contains(&x)
}

// The new length, which is past the row's end where the list with x no longer fits it: `Holds` of specs/Pending.antt says so of a number.
pub fn push(pending: &mut [u32], n: usize, x: u32) -> usize
    ensures { (l : List ℕ) → Holds pending.old n l → Holds pending.new result (x ∷ l) }
{
    if n > pending.len() {
        return n;
    }
    if n == pending.len() {
        return n + 1;
    }
    pending[n] = x;
    n + 1
}

// The value of a list of n entries, numbers below `edges`, without a set. One is worth its making when an eighth of its words have been
// looked at.
pub fn list_of(n: usize, edges: u32) -> PendingList
    ensures { (result.length ≡ n) × (result.set ≡ false) }
{
    PendingList {
        length: n,
        looks: (edges / 256) as usize,
        set: false,
    }
}

// How many words a set of the numbers below `edges` takes.
fn set_words(edges: u32) -> usize
    ensures { result ≡ set_words edges }
{
    (edges / 32) as usize + 1
}

// The place of the word that has the bit of x.
fn word_at(pending: &[u32], x: u32) -> usize
    requires { x / 32 < length pending.now }
    ensures { result ≡ word_at pending.now x }
{
    pending.len() - 1 - (x / 32) as usize
}

// Whether the set has x.
fn is_marked(pending: &[u32], x: u32) -> bool
    requires { x / 32 < length pending.now }
    ensures { result ≡ is_marked pending.now x }
{
    let word = pending[word_at(pending, x)];
    (word >> (x % 32)) % 2 == 1
}

// Puts x into the set, which does not have it.
fn mark(pending: &mut [u32], x: u32)
    requires { (x / 32 < length pending.old) × (is_marked pending.old x ≡ false) }
    ensures { pending.new ≡ set pending.old (word_at pending.old x)
        (get_or pending.old (word_at pending.old x) 0 + 2 ^ (x % 32)) }
{
    let at = word_at(pending, x);
    pending[at] += 1 << (x % 32);
}

// Takes x out of the set, which has it.
fn unmark(pending: &mut [u32], x: u32)
    requires { (x / 32 < length pending.old) × (is_marked pending.old x ≡ true) }
    ensures { pending.new ≡ set pending.old (word_at pending.old x)
        (get_or pending.old (word_at pending.old x) 0 - 2 ^ (x % 32)) }
{
    let at = word_at(pending, x);
    pending[at] -= 1 << (x % 32);
}

// The last entry is taken from the list, and from the set. The numbers are below `edges`.
pub fn pop(pending: &mut [u32], list: PendingList, edges: u32) -> Taken
    requires { ToPop pending.old list edges }
    ensures { LastTaken pending.old list pending.new result.entry result.list edges }
{
    let PendingList { length, set, .. } = list;
    let entry = pending[length - 1];
    if set {
        unmark(pending, entry);
    }
    Taken {
        entry,
        list: PendingList {
            length: length - 1,
            ..list
        },
    }
}

// Zeros from `from` on.
fn clear_words(pending: &mut [u32], from: usize)
    requires { from ≤ length pending.old }
    ensures { Cleared pending.old pending.new from (length pending.old) }
{
    pending[from..].fill(0);
}

// Puts the first n entries into a set of the numbers below `edges`, whose words are zeros, unless one stands twice or is no such number.
fn mark_entries(pending: &mut [u32], n: usize, edges: u32) -> bool
    requires { MarkedTo pending.old pending.old 0 n edges }
    ensures { (pending_of pending.new n ≡ pending_of pending.old n)
        × (result ≡ true → Marks pending.new n edges) }
{
    for i in 0..n {
        let x = pending[i];
        if x >= edges || is_marked(pending, x) {
            return false;
        }
        mark(pending, x);
    }
    true
}

// A set of the list's entries, if it leaves the words free. If it does not, as many entries are looked through before the next try.
fn make_set(pending: &mut [u32], list: PendingList, edges: u32) -> PendingList
    ensures { Becomes pending.old list pending.new result edges (λ l. l) }
{
    let n = list.length;
    let none = list_of(n, edges);
    let words = set_words(edges);
    if words > pending.len() {
        return none;
    }
    let from = pending.len() - words;
    if n > from {
        return none;
    }
    clear_words(pending, from);
    if !mark_entries(pending, n, edges) {
        return none;
    }
    PendingList {
        length: n,
        looks: 0,
        set: true,
    }
}

// A set, where the list is long and has been looked through often enough.
fn prepare(pending: &mut [u32], list: PendingList, edges: u32) -> PendingList
    requires { SetOf pending.old list edges }
    ensures { Becomes pending.old list pending.new result edges (λ l. l) }
{
    let n = list.length;
    if n < FEW || list.set {
        return list;
    }
    if n < list.looks {
        return PendingList {
            looks: list.looks - n,
            ..list
        };
    }
    make_set(pending, list, edges)
}

// `push` of an x that is not pushed where it is there already.
fn push_missing(pending: &mut [u32], n: usize, x: u32) -> usize
    ensures { (l : List ℕ) → Holds pending.old n l → Holds pending.new result (push_if_not_contained x l) }
{
    if n > pending.len() {
        return n;
    }
    if contains(pending, n, x) {
        return n;
    }
    push(pending, n, x)
}

// The same on a list, which has no set then.
fn push_looking(pending: &mut [u32], list: PendingList, x: u32) -> PendingList
    ensures { (edges : ℕ) → Becomes pending.old list pending.new result edges (push_if_not_contained x) }
{
    PendingList {
        length: push_missing(pending, list.length, x),
        set: false,
        ..list
    }
}

// The same by its set. Where the list needs the set's room, the set is given up.
fn push_marking(pending: &mut [u32], list: PendingList, edges: u32, x: u32) -> PendingList
    requires { Marks pending.old list.length edges }
    ensures { Becomes pending.old list pending.new result edges (push_if_not_contained x) }
{
    if x >= edges {
        return push_looking(pending, list, x);
    }
    if is_marked(pending, x) {
        return list;
    }
    let n = list.length;
    if pending.len() - n <= set_words(edges) {
        return list_of(push(pending, n, x), edges);
    }
    mark(pending, x);
    pending[n] = x;
    PendingList {
        length: n + 1,
        ..list
    }
}

fn push_if_not_contained(pending: &mut [u32], list: PendingList, edges: u32, x: u32) -> PendingList
    requires { SetOf pending.old list edges }
    ensures { Becomes pending.old list pending.new result edges (push_if_not_contained x) }
{
    if list.set {
        return push_marking(pending, list, edges, x);
    }
    push_looking(pending, list, x)
}

// a, then b, each if it is not there already, on a list of the numbers below `edges`. A flip pushes two such pairs: with two callers this stays
// a function of its own, and the loop that flips, most of whose entries are half-edges, is kept free of sets.
pub fn push_two(pending: &mut [u32], list: PendingList, edges: u32, a: u32, b: u32) -> PendingList
    requires { SetOf pending.old list edges }
    ensures { Becomes pending.old list pending.new result edges
        (λ l. push_if_not_contained b (push_if_not_contained a l)) }
{
    let l0 = prepare(pending, list, edges);
    let l1 = push_if_not_contained(pending, l0, edges, a);
    push_if_not_contained(pending, l1, edges, b)
}
