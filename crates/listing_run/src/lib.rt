// The listing of a text: bytes to bytes, for any bytes whatever. What is listed is `listing_of` of specs/ListingRun.antt.
#![tactic(auto)]

ghost use Rattle.std.specs.Prelude.{◌≡◌, List, ◌++◌, ℕ, ◌+◌, ◌*◌, ◌≤◌, ◌<◌, length, take, replicate};
ghost use Rattle.std.proofs.lemmas.List.Edits.{sets};
ghost use Rattle.dcel.specs.MeshRows.{mesh_rows};
ghost use Rattle.dcel.specs.Rows.{links_of, position_of};
ghost use Rattle.finish.specs.declared.Totals.{Totals};
ghost use Rattle.listing_text.specs.Decimal.{Appended};
ghost use Rattle.listing_text.specs.Listing.{point_line, totals_line};
ghost use Rattle.mesh.specs.Area.{area_total};
ghost use Rattle.mesh_check.specs.Check.{point_count};
ghost use Rattle.ring_rows.specs.RingRows.{RingRows, ring_rows};
ghost use Rattle.ring_rows.specs.Rows.{zero_node};
ghost use Rattle.sweep.specs.Run.{run_lent, ran_with, answer_words};
ghost use Rattle.sweep.specs.SeedTriangle.{seed_outs_of, seed_halves_of, seed_faces_of};
ghost use Rattle.listing_run.specs.ListingRun.{lent_in};
ghost use Rattle.listing_run.specs.ListingRun.{answer_line, point_lines, totals_of, outcome_listing, lent_listing, numbers_listing, listing_of};
ghost use Rattle.listing_run.specs.ListingRunRows.{RanWithOwnNodes, Summable, Listable};

use angle::Point2;
use finish::{FinishAnswer, Totals};
use listing_text::writing::{PointLine, TotalsLine};
use mesh::Counts;
use ring_rows::Node;
use sweep::ANSWER_WORDS;

// The inner faces' doubled areas, in total.
fn doubled_area(positions: &[i32], halves: &[u32], faces: &[u32], counts: Counts) -> i64
    requires { Summable counts positions.now halves.now faces.now }
    ensures { (o : List ℕ) → result
        ≡ area_total counts (links_of o halves.now faces.now) (position_of positions.now) }
{
    area::sum_areas(positions, halves, faces, counts).to_i64()
}

// The answer of point i.
fn answer_line(answers: &[u64], i: usize) -> PointLine
    requires { answer_words * i + answer_words ≤ length answers.now }
    ensures is { result ≡ answer_line answers.now i }
    ensures short { length (point_line result) ≤ 107 }
{
    let at = ANSWER_WORDS * i;
    PointLine {
        index: i as u64,
        fate: answers[at],
        vertex: answers[at + 1],
        faces: answers[at + 2],
        flips: answers[at + 3],
    }
}

// A line for each point.
fn put_points(answers: &[u64], count: usize, row: &mut [u8]) -> usize
    requires { answer_words * count ≤ length answers.now }
    ensures is { Appended row.old 0 (point_lines answers.now count) row.new result }
    ensures short { length (point_lines answers.now count) ≤ 107 * count }
{
    let mut place = 0;
    for i in 0..count {
        place = listing_text::writing::put_point(row, place, answer_line(answers, i));
    }
    place
}

// The last line, of an accepted run.
fn totals_line(counts: Counts, area: i64, totals: Totals) -> TotalsLine
    requires { 0 < counts.faces }
    ensures is { result ≡ totals_of counts area totals }
    ensures short { length (totals_line result) ≤ 149 }
{
    TotalsLine {
        vertices: counts.vertices as u64,
        edges: counts.edges as u64,
        inner_faces: (counts.faces - 1) as u64,
        doubled_area: area,
        finish_faces: totals.faces as u64,
        convex_flips: totals.convexflips,
        closing_flips: totals.closingflips,
    }
}

// A line for each point, and the totals.
fn list_accepted(
    counts: Counts,
    totals: Totals,
    positions: &[i32],
    halves: &[u32],
    faces: &[u32],
    answers: &[u64],
    count: usize,
    row: &mut [u8],
) -> usize
    requires { Listable counts positions.now halves.now faces.now answers.now count }
    ensures is { (o : List ℕ) → Appended row.old 0
        (point_lines answers.now count
        ++ totals_line (totals_of counts
        (area_total counts (links_of o halves.now faces.now) (position_of positions.now)) totals))
        row.new result }
    ensures short { (o : List ℕ) → length (point_lines answers.now count
        ++ totals_line (totals_of counts
        (area_total counts (links_of o halves.now faces.now) (position_of positions.now)) totals))
        ≤ 107 * count + 149 }
{
    let area = doubled_area(positions, halves, faces, counts);
    let place = put_points(answers, count, row);
    let line = totals_line(counts, area, totals);
    listing_text::writing::put_totals(row, place, line)
}

// What a run has answered.
fn list_answer(
    answer: FinishAnswer,
    positions: &[i32],
    halves: &[u32],
    faces: &[u32],
    answers: &[u64],
    count: usize,
    row: &mut [u8],
) -> usize
    requires { (t : Totals) → answer.finished ≡ Ok t
        → Listable answer.counts positions.now halves.now faces.now answers.now count }
    ensures is { (o : List ℕ) (ring : RingRows) (pending : List ℕ) → Appended row.old 0
        (outcome_listing count (ran_with answer (mesh_rows positions.now o halves.now faces.now)
        ring pending answers.now))
        row.new result }
    ensures short { (o : List ℕ) (ring : RingRows) (pending : List ℕ) → length
        (outcome_listing count (ran_with answer (mesh_rows positions.now o halves.now faces.now)
        ring pending answers.now)) ≤ 107 * count + 149 }
{
    let counts = answer.counts;
    match answer.finished {
        Err(refusal) => listing_text::writing::put_refusal(
            row,
            0,
            refusal.number as u64,
            refusal.place as u64,
        ),
        Ok(totals) => {
            list_accepted(
                counts, totals, positions, halves, faces, answers, count, row,
            )
        }
    }
}

// A row of nodes for 400 vertices.
fn zero_nodes() -> [Node; 401]
    ensures { result ≡ replicate 401 zero_node }
{
    let zero = Node {
        angle: 0.0,
        edge: 0,
        left: 0,
        right: 0,
    };
    [zero; 401]
}

// A run on what is lent, with a row of nodes of its own.
fn run_lent(
    counts: Counts,
    positions: &mut [i32],
    outs: &mut [u32],
    halves: &mut [u32],
    faces: &mut [u32],
    freed: &mut [u32],
    buckets: &mut [u32],
    pending: &mut [u32],
    answers: &mut [u64],
    center: Point2,
    points: &[i32],
) -> FinishAnswer
    ensures { RanWithOwnNodes
        (run_lent counts (mesh_rows positions.old outs.old halves.old faces.old)
        (ring_rows (replicate 401 zero_node) freed.old buckets.old) pending.old answers.old
        center points.now)
        result (mesh_rows positions.new outs.new halves.new faces.new)
        freed.new buckets.new pending.new answers.new }
{
    let mut nodes = zero_nodes();
    run::run(
        counts, positions, outs, halves, faces, &mut nodes, freed, buckets, pending, answers,
        center, points,
    )
}

// A run on what is lent, and its listing.
fn list_lent(
    counts: Counts,
    positions: &mut [i32],
    outs: &mut [u32],
    halves: &mut [u32],
    faces: &mut [u32],
    freed: &mut [u32],
    buckets: &mut [u32],
    pending: &mut [u32],
    answers: &mut [u64],
    center: Point2,
    points: &[i32],
    row: &mut [u8],
) -> usize
    requires { counts.vertices + point_count points.now ≤ 400 }
    ensures is { Appended row.old 0
        (lent_listing (run_lent counts
        (mesh_rows positions.old outs.old halves.old faces.old)
        (ring_rows (replicate 401 zero_node) freed.old buckets.old) pending.old answers.old
        center points.now))
        row.new result }
    ensures short { length
        (lent_listing (run_lent counts
        (mesh_rows positions.old outs.old halves.old faces.old)
        (ring_rows (replicate 401 zero_node) freed.old buckets.old) pending.old answers.old
        center points.now)) ≤ 42949 }
{
    let count = mesh_check::point_count(points);
    let answer = run_lent(
        counts, positions, outs, halves, faces, freed, buckets, pending, answers, center, points,
    );
    list_answer(answer, positions, halves, faces, answers, count, row)
}

// The seed's links and positions, over the first entries of the mesh's rows.
fn store_seed(
    numbers: &[i32],
    positions: &mut [i32],
    outs: &mut [u32],
    halves: &mut [u32],
    faces: &mut [u32],
)
    requires { (6 ≤ length numbers.now) × (6 ≤ length positions.old) × (3 ≤ length outs.old)
        × (24 ≤ length halves.old) × (2 ≤ length faces.old) }
    ensures { (positions.new ≡ sets positions.old 0 (take 6 numbers.now))
        × (outs.new ≡ sets outs.old 0 seed_outs_of)
        × (halves.new ≡ sets halves.old 0 seed_halves_of)
        × (faces.new ≡ sets faces.old 0 seed_faces_of) }
{
    positions[..6].copy_from_slice(&numbers[..6]);
    outs[..3].copy_from_slice(&[0, 2, 4]);
    halves[..24].copy_from_slice(&[
        2, 4, 1, 0, 5, 3, 0, 1, 4, 0, 1, 1, 1, 5, 0, 2, 0, 2, 1, 2, 3, 1, 0, 0,
    ]);
    faces[..2].copy_from_slice(&[1, 0]);
}

// The seed into lent rows, and the run on them.
fn list_seed(
    numbers: &[i32],
    positions: &mut [i32],
    outs: &mut [u32],
    halves: &mut [u32],
    faces: &mut [u32],
    freed: &mut [u32],
    buckets: &mut [u32],
    pending: &mut [u32],
    answers: &mut [u64],
    row: &mut [u8],
) -> usize
    requires in_bounds { (8 ≤ length numbers.now) × (length numbers.now ≤ 802) }
    requires in_bounds_2 { (6 ≤ length positions.old) × (3 ≤ length outs.old) × (24 ≤ length halves.old) × (2 ≤ length faces.old) }
    ensures is { Appended row.old 0
        (lent_listing (lent_in numbers.now
        (mesh_rows positions.old outs.old halves.old faces.old)
        freed.old buckets.old pending.old answers.old))
        row.new result }
    ensures short { length
        (lent_listing (lent_in numbers.now
        (mesh_rows positions.old outs.old halves.old faces.old)
        freed.old buckets.old pending.old answers.old)) ≤ 42949 }
{
    store_seed(numbers, positions, outs, halves, faces);
    let center = angle::to_f64(numbers[6], numbers[7]);
    let counts = Counts {
        vertices: 3,
        edges: 3,
        faces: 2,
    };
    list_lent(
        counts,
        positions,
        outs,
        halves,
        faces,
        freed,
        buckets,
        pending,
        answers,
        center,
        &numbers[8..],
        row,
    )
}

// Rows for 400 vertices, and the run on them.
fn list_numbers(numbers: &[i32], row: &mut [u8]) -> usize
    requires { (8 ≤ length numbers.now) × (length numbers.now ≤ 802) }
    ensures is { Appended row.old 0 (numbers_listing numbers.now) row.new result }
    ensures short { length (numbers_listing numbers.now) ≤ 42949 }
{
    let mut positions = [0i32; 800];
    let mut outs = [0u32; 400];
    let mut halves = [0u32; 9600];
    let mut faces = [0u32; 800];
    let mut freed = [0u32; 401];
    let mut buckets = [0u32; 400];
    let mut pending = [0u32; 4096];
    let mut answers = [0u64; 1588];
    list_seed(
        numbers,
        &mut positions,
        &mut outs,
        &mut halves,
        &mut faces,
        &mut freed,
        &mut buckets,
        &mut pending,
        &mut answers,
        row,
    )
}

// The listing of any bytes, from the row's start on. The answer is where it ends; in a row of 42,949 bytes or more it always fits.
pub fn list(text: &[u8], row: &mut [u8]) -> usize
    ensures is { Appended row.old 0 (listing_of text.now) row.new result }
    ensures short { length (listing_of text.now) ≤ 42949 }
{
    let mut numbers = [0i32; 802];
    match listing_text::reading::read(text, &mut numbers) {
        Ok(count) => list_numbers(&numbers[..count], row),
        Err(line) => listing_text::writing::put_refusal(row, 0, 0, u64::from(line.number)),
    }
}
