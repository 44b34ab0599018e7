// The samples of the circle test and of `is_behind_edge`.
use test_mesh::lines;
use test_text::{Failure, Reader, demand};

// The answer is the sign of a determinant.
pub fn circle_sample(mut text: Reader) -> Result<(), Failure> {
    text.take(b'i')?;
    let a = lines::read_coordinates(&mut text)?;
    let b = lines::read_coordinates(&mut text)?;
    let c = lines::read_coordinates(&mut text)?;
    let d = lines::read_coordinates(&mut text)?;
    let sign: i32 = text.entry()?;
    text.take(b'\n')?;
    demand(-1 <= sign && sign <= 1)?;
    if math::validate_vertex(a)
        && math::validate_vertex(b)
        && math::validate_vertex(c)
        && math::validate_vertex(d)
    {
        return demand(math::contained_in_circumference(a, b, c, d) == (sign == 1));
    }
    Err(Failure::Differs)
}

pub fn behind_sample(mut text: Reader) -> Result<(), Failure> {
    text.take(b'b')?;
    let a = lines::read_coordinates(&mut text)?;
    let b = lines::read_coordinates(&mut text)?;
    let c = lines::read_coordinates(&mut text)?;
    let answer = super::read_answer(&mut text)?;
    text.take(b'\n')?;
    demand(
        math::validate_vertex(a)
            && math::validate_vertex(b)
            && math::validate_vertex(c)
            && math::is_behind_edge(a, b, c) == answer,
    )
}
