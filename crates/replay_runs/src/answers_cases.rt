// The answers of the Rust itself (oracle/answers.txt): for each point the fate, vertex, faces and flips of its step, then the mesh after
// the last step, the faces and flips of the first pass of `fix_convexity`, and the mesh after it; then the answers of all points with the
// skipped ones put in, and the mesh with them in it. Ours are held against the first two meshes link by link: counts, positions and every
// entry of the rows. A run makes the same steps and goes on with all passes, the skipped points and the closing pass. Its answers must be
// the Rust's too, and it must leave what a finish makes of the Rust's last mesh, with the faces and flips of the first pass and of that
// finish added up. Where the Rust's search goes on for ever, or a later pass adds a face, there is no such mesh: then the run is accepted.
ghost use Rattle.std.specs.Prelude.{IfOk};
ghost use Rattle.test_mesh.specs.Lent.{CoordinatesLent};

use angle::Point2;
use fithmoul::results::{FinishResult, RunResult};
use test_mesh::{Coordinates, LONGS, Longs, Mesh, NODES, PLAIN, Ring, WORDS, Words, lines};
use test_text::{Failure, Number, Reader, demand};

// What a pass of `fix_convexity` adds and flips.
#[derive(Clone, Copy, PartialEq)]
struct Pass {
    faces: u64,
    flips: u64,
}

// The line `i`, with the case's number.
fn read_number_line(text: &mut Reader) -> Result<(), Failure> {
    text.take(b'i')?;
    text.entry::<u64>()?;
    text.take(b'\n')
}

// The line `q`, with the points.
fn read_points(text: &mut Reader) -> Result<Coordinates, Failure>
    ensures { IfOk result CoordinatesLent }
{
    text.take(b'q')?;
    lines::read_points(text)
}

// The line `g faces flips`, of the first pass.
fn read_pass(text: &mut Reader) -> Result<Pass, Failure> {
    text.take(b'g')?;
    let faces = text.entry()?;
    let flips = text.entry()?;
    text.take(b'\n')?;
    Ok(Pass { faces, flips })
}

// The mesh must be the one that stands here. Behind the entries that are written both have zeros.
fn demand_mesh(text: &mut Reader, mesh: &Mesh) -> Result<(), Failure> {
    demand(mesh.is(&PLAIN.read(text)?))
}

// The answers must be those of the line that stands here, which has a tag, and untouched behind them.
fn demand_answers(text: &mut Reader, tag: u8, answers: &Longs) -> Result<(), Failure> {
    let mut due = [Number::from(0u32); LONGS];
    let length = test_mesh::read_plain_row(text, tag, &mut due, Number::from(7u32))?;
    demand(test_mesh::are_due(answers.as_slice(), &due[..length]))
}

// A run that stops before its finish; its answers.
fn steps_on(mesh: &mut Mesh, center: Point2, points: &Coordinates) -> Longs {
    let mut ring = Ring::sevens(NODES, WORDS, WORDS);
    let mut pending = Words::sevens(WORDS);
    let mut answers = Longs::sevens(LONGS);
    let end = stages::steps(
        mesh.counts,
        mesh.positions.as_mut_slice(),
        mesh.outs.as_mut_slice(),
        mesh.halves.as_mut_slice(),
        mesh.faces.as_mut_slice(),
        ring.nodes.as_mut_slice(),
        ring.freed.as_mut_slice(),
        ring.buckets.as_mut_slice(),
        pending.as_mut_slice(),
        answers.as_mut_slice(),
        center,
        points.as_slice(),
    );
    mesh.counts = end.counts;
    answers
}

// One pass of `fix_convexity`.
fn pass_on(mesh: &mut Mesh) -> Pass {
    let mut pending = Words::sevens(WORDS);
    let added = stages::pass(
        mesh.counts,
        mesh.positions.as_slice(),
        mesh.outs.as_mut_slice(),
        mesh.halves.as_mut_slice(),
        mesh.faces.as_mut_slice(),
        pending.as_mut_slice(),
    );
    mesh.counts = added.counts;
    Pass {
        faces: u64::from(added.faces),
        flips: added.flips,
    }
}

// A finish that must leave zeros in pending.
fn finish_on(mesh: &mut Mesh) -> Result<FinishResult, Failure> {
    let mut pending = Words::sevens(WORDS);
    let r = super::finish_on(mesh, &mut pending);
    demand(test_mesh::holds(pending.as_slice(), 0))?;
    Ok(r)
}

// A run on a mesh whose change count is 7, which must start the count at 0, and leave zeros in the ring's rows and pending.
fn run_on(
    mesh: &mut Mesh,
    answers: &mut Longs,
    center: Point2,
    points: &Coordinates,
) -> Result<RunResult, Failure> {
    let mut ring = Ring::sevens(NODES, WORDS, WORDS);
    let mut pending = Words::sevens(WORDS);
    let point_heights = test_mesh::zero_heights();
    let r = super::run_on(
        mesh,
        7,
        &mut ring,
        &mut pending,
        answers,
        center,
        points,
        &point_heights,
    );
    demand(ring.holds(0) && test_mesh::holds(pending.as_slice(), 0) && r.changes == 0)?;
    Ok(r)
}

// Whether the numbers of a run are those of a pass and of the finish after it together.
fn add_up(run: RunResult, pass: Pass, rest: FinishResult) -> bool {
    run.refusal == 0
        && rest.refusal == 0
        && pass.faces.checked_add(u64::from(rest.faces_added)) == Some(u64::from(run.faces_added))
        && pass.flips.checked_add(rest.convex_flips) == Some(run.convex_flips)
        && run.closing_flips == rest.closing_flips
}

// Whether a line has a tag alone and is the last of its case but for the line `e`.
fn is_last(mut text: Reader, tag: u8) -> bool {
    text.line_of::<u64>(tag, &[]).is_ok() && text.line_of::<u64>(b'e', &[]).is_ok()
}

// The run must agree with the lines behind the first pass.
fn demand_run(
    mut text: Reader,
    mut mesh: Mesh,
    center: Point2,
    points: &Coordinates,
    pass: Pass,
) -> Result<(), Failure> {
    let mut answers = Longs::sevens(LONGS);
    let r = run_on(&mut mesh, &mut answers, center, points)?;
    if is_last(text, b'l') || is_last(text, b'b') {
        return demand(r.refusal == 0);
    }
    demand_answers(&mut text, b'b', &answers)?;
    let mut due = PLAIN.read(&mut text)?;
    let rest = finish_on(&mut due)?;
    demand(mesh.is(&due) && add_up(r, pass, rest))?;
    text.line_of::<u64>(b'e', &[])
}

pub fn agrees(mut text: Reader) -> Result<(), Failure> {
    read_number_line(&mut text)?;
    let seed = PLAIN.read(&mut text)?;
    let center = lines::read_center(&mut text, b'c')?;
    let points = read_points(&mut text)?;
    let mut mesh = seed;
    let answers = steps_on(&mut mesh, center, &points);
    demand_answers(&mut text, b'a', &answers)?;
    demand_mesh(&mut text, &mesh)?;
    let pass = pass_on(&mut mesh);
    demand(read_pass(&mut text)? == pass)?;
    demand_mesh(&mut text, &mesh)?;
    demand_run(text, seed, center, &points, pass)
}
