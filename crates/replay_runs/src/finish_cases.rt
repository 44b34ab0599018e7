// Meshes and what `fithmoul_finish` makes of them (tests/reference/finish_cases.py): unsettled fans, zigzag arms that need many passes,
// overlapping and pinched meshes, pending lists that fill, and every refusal. A case agrees where the answer, the counts and every row
// over its whole length do.
use test_mesh::{LENT, WORDS, Words, lines};
use test_text::{Failure, Reader, demand};

pub fn agrees(mut text: Reader) -> Result<(), Failure> {
    let lent = LENT.read(&mut text)?;
    let mut pending = Words::sevens(lines::read_sevens(&mut text, b'q', WORDS)?);
    let mut mesh = lent;
    let r = super::finish_on(&mut mesh, &mut pending);
    demand(test_mesh::holds(pending.as_slice(), lines::cleared(&text)))?;
    lines::demand_mesh(&mut text, &lent, &mesh)?;
    // Refusal, place, faces, flips of the convexity passes and of the closing pass.
    text.line_of(
        b'r',
        &[
            u64::from(r.refusal),
            u64::from(r.place),
            u64::from(r.faces_added),
            r.convex_flips,
            r.closing_flips,
        ],
    )
}
