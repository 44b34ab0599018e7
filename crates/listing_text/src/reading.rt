// The input of a run: lines `S x0 y0 x1 y1 x2 y2`, `C x y` and then `P x y`, of which there are at most 397.
// What a text says is `read_of` of specs/Reading.antt.
ghost use Rattle.std.specs.Prelude.{◌≡◌, ◌<◌, length};
ghost use Rattle.listing_text.specs.Reading.{natural_of, number_of, numbers_of, line_of, letter_of, count_of};
ghost use Rattle.listing_text.specs.Reading.{read_of, input_of, numbers_row};
ghost use Rattle.listing_text.specs.ReadingParts.{up_to, fields_behind, saturated, Stored, StoredAll};

// The first wrong line, by its number.
#[derive(Clone, Copy, Debug, PartialEq, Eq)]
pub struct MalformedLine {
    pub number: u32,
}

// The place of the first mark, or the text's end.
fn end(text: &[u8], mark: u8) -> usize
    ensures { result ≡ up_to mark text.now }
{
    text.iter().position(|b| *b == mark).unwrap_or(text.len())
}

// What digits say, at least one. A value past 32 bits stops at their greatest, which is too large for 32 signed bits too.
fn digits(field: &[u8]) -> Option<u32>
    ensures { result ≡ saturated (natural_of field.now) }
{
    if field.is_empty() {
        return None;
    }
    let mut value: u32 = 0;
    for b in field {
        if !b.is_ascii_digit() {
            return None;
        }
        value = value
            .saturating_mul(10)
            .saturating_add(u32::from(*b - b'0'));
    }
    Some(value)
}

// What a field says.
fn number(field: &[u8]) -> Option<i32>
    ensures { result ≡ number_of field.now }
{
    match field {
        [b'-', rest @ ..] => i32::try_from(-i64::from(digits(rest)?)).ok(),
        _ => i32::try_from(digits(field)?).ok(),
    }
}

// Whether as many numbers as the row takes, and no more, stand behind the end of a field. They are stored.
fn fields(line: &[u8], numbers: &mut [i32]) -> bool
    ensures { Stored (numbers_of (length numbers.old) (fields_behind line.now)) numbers.new result }
{
    let mut rest = line;
    for stored in numbers {
        let Some((_, behind)) = rest.split_first() else {
            return false;
        };
        let (field, after) = behind.split_at(end(behind, b' '));
        let Some(n) = number(field) else {
            return false;
        };
        *stored = n;
        rest = after;
    }
    rest.is_empty()
}

// Whether a line is its letter and its numbers, which are stored.
fn line(bytes: &[u8], letter: u8, numbers: &mut [i32]) -> bool
    ensures { Stored (line_of letter (length numbers.old) bytes.now) numbers.new result }
{
    if end(bytes, b' ') != 1 || bytes[0] != letter {
        return false;
    }
    fields(&bytes[1..], numbers)
}

// The letter of a line, by its number.
fn letter(number: u32) -> u8
    ensures { result ≡ letter_of number }
{
    match number {
        1 => b'S',
        2 => b'C',
        _ => b'P',
    }
}

// How many numbers it has.
fn count(number: u32) -> usize
    ensures { result ≡ count_of number }
{
    if number == 1 { 6 } else { 2 }
}

// All lines, and how many numbers they have. The row holds the numbers only where no line is wrong.
fn lines(text: &[u8], numbers: &mut [i32; 802]) -> Result<usize, MalformedLine>
    ensures { StoredAll numbers.old (read_of text.now) numbers.new result }
{
    let mut place = 0;
    let mut number: u32 = 1;
    let mut stored = 0;
    // From line to line: where the next one begins is known at the end of this one.
    while place < text.len() {
        if number >= 400 {
            return Err(MalformedLine { number });
        }
        let stop = place + end(&text[place..], b'\n');
        let next = stored + count(number);
        if !line(
            &text[place..stop],
            letter(number),
            &mut numbers[stored..next],
        ) {
            return Err(MalformedLine { number });
        }
        stored = next;
        number += 1;
        place = stop + 1;
    }
    if number < 3 {
        return Err(MalformedLine { number });
    }
    Ok(stored)
}

// The numbers of a text: the seed's x0 y0 x1 y1 x2 y2, the centre's x y, and each point's. The answer is how many they are.
// A text that is wrong leaves the row as it was.
pub fn read(text: &[u8], numbers: &mut [i32; 802]) -> Result<usize, MalformedLine>
    ensures value { result ≡ input_of (read_of text.now) }
    ensures numbers_after { numbers.new ≡ numbers_row (read_of text.now) numbers.old }
{
    let mut row = *numbers;
    let count = lines(text, &mut row)?;
    *numbers = row;
    Ok(count)
}
