// Runs by `fithmoul_run` (tests/reference/run_cases.py run): every refusal, every fate, lists of points of many kinds, rings that grow
// and shrink, long runs of one angle, long walks, pending lists that fill in a step and in the finish. A case agrees where the answer,
// the counts, the change count and every row over its whole length do: the ring's rows, pending and the answers are lent full of sevens.
use test_mesh::{LENT, LONGS, Longs, Ring, WORDS, Words, lines};
use test_text::{Failure, Reader, demand};

// The change count that a run must answer: 0 where it has changed the mesh, else the given one.
fn changes_due(text: &Reader, given: u32) -> u32 {
    if lines::is_told(text) { 0 } else { given }
}

pub fn agrees(mut text: Reader) -> Result<(), Failure> {
    let lent = LENT.read(&mut text)?;
    let changes = lines::read_changes(&mut text)?;
    let mut ring = Ring::read(&mut text)?;
    let mut pending = Words::sevens(lines::read_sevens(&mut text, b'q', WORDS)?);
    let center = lines::read_center(&mut text, b'x')?;
    let mut answers = Longs::sevens(lines::read_sevens(&mut text, b'w', LONGS)?);
    let points = lines::read_counted_points(&mut text)?;
    let point_heights = test_mesh::read_heights(&mut text, b'y')?;
    let mut mesh = lent;
    let r = super::run_on(
        &mut mesh,
        changes,
        &mut ring,
        &mut pending,
        &mut answers,
        center,
        &points,
        &point_heights,
    );
    let cleared = lines::cleared(&text);
    demand(ring.holds(cleared) && test_mesh::holds(pending.as_slice(), cleared))?;
    demand(r.changes == changes_due(&text, changes))?;
    lines::demand_mesh(&mut text, &lent, &mesh)?;
    lines::demand_answers(&mut text, answers.as_slice())?;
    // Refusal, place, faces, flips of the convexity passes and of the closing pass.
    text.line_of(
        b'r',
        &[
            u64::from(r.refusal),
            u64::from(r.place),
            u64::from(r.faces_added),
            r.convex_flips,
            r.closing_flips,
        ],
    )
}
