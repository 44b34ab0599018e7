// The lines of a listing, appended to a row of bytes that the caller lends. A place is where the next byte goes.
// Bytes that do not fit are left out, and a place past the row's end says so.
// Row and place are two parameters: of a struct that held the `&mut`, each contract would speak by its ghost name, and be no plainer.
ghost use Rattle.std.specs.Prelude.{[], ◌∷◌, ◌≡◌};
ghost use Rattle.listing_text.specs.Decimal.{decimal, signed_decimal, Appended};
ghost use Rattle.listing_text.specs.Listing.{field, point_line, totals_line, refusal_line};

// What became of a point.
#[derive(Clone, Copy)]
pub struct PointLine {
    pub index: u64,
    pub fate: u64,
    pub vertex: u64,
    pub faces: u64,
    pub flips: u64,
}

// What a run ends with.
#[derive(Clone, Copy)]
pub struct TotalsLine {
    pub vertices: u64,
    pub edges: u64,
    pub inner_faces: u64,
    pub doubled_area: i64,
    pub finish_faces: u64,
    pub convex_flips: u64,
    pub closing_flips: u64,
}

// One byte.
pub fn put(row: &mut [u8], at: usize, byte: u8) -> usize
    ensures { Appended row.old at (byte ∷ []) row.new result }
{
    if at < row.len() {
        row[at] = byte;
        return at + 1;
    }
    if at == row.len() {
        return at + 1;
    }
    at
}

// The bytes of a literal.
pub fn put_bytes(row: &mut [u8], at: usize, bytes: &[u8]) -> usize
    ensures { Appended row.old at bytes.now row.new result }
{
    let mut place = at;
    for byte in bytes {
        place = put(row, place, *byte);
    }
    place
}

// The digits of a number.
pub fn put_number(row: &mut [u8], at: usize, n: u64) -> usize
    ensures { Appended row.old at (decimal n) row.new result }
{
    let digit = (n % 10) as u8 + 48;
    if n < 10 {
        return put(row, at, digit);
    }
    let place = put_number(row, at, n / 10);
    put(row, place, digit)
}

pub fn put_signed(row: &mut [u8], at: usize, n: i64) -> usize
    ensures { Appended row.old at (signed_decimal n) row.new result }
{
    if n < 0 {
        let place = put(row, at, b'-');
        return put_number(row, place, n.unsigned_abs());
    }
    put_number(row, at, n.unsigned_abs())
}

// A blank and a number.
fn put_field(row: &mut [u8], at: usize, n: u64) -> usize
    ensures { Appended row.old at (field n) row.new result }
{
    let place = put(row, at, b' ');
    put_number(row, place, n)
}

// `p index fate vertex faces flips`
pub fn put_point(row: &mut [u8], at: usize, line: PointLine) -> usize
    ensures { Appended row.old at (point_line line) row.new result }
{
    let mut place = put(row, at, b'p');
    place = put_field(row, place, line.index);
    place = put_field(row, place, line.fate);
    place = put_field(row, place, line.vertex);
    place = put_field(row, place, line.faces);
    place = put_field(row, place, line.flips);
    put(row, place, b'\n')
}

// `t vertices edges innerfaces doubledarea finishfaces convexflips closingflips`
pub fn put_totals(row: &mut [u8], at: usize, line: TotalsLine) -> usize
    ensures { Appended row.old at (totals_line line) row.new result }
{
    let mut place = put(row, at, b't');
    place = put_field(row, place, line.vertices);
    place = put_field(row, place, line.edges);
    place = put_field(row, place, line.inner_faces);
    place = put(row, place, b' ');
    place = put_signed(row, place, line.doubled_area);
    place = put_field(row, place, line.finish_faces);
    place = put_field(row, place, line.convex_flips);
    place = put_field(row, place, line.closing_flips);
    put(row, place, b'\n')
}

// `r number place`
pub fn put_refusal(row: &mut [u8], at: usize, number: u64, place: u64) -> usize
    ensures { Appended row.old at (refusal_line number place) row.new result }
{
    let first = put(row, at, b'r');
    let second = put_field(row, first, number);
    let third = put_field(row, second, place);
    put(row, third, b'\n')
}
