// Samples of the exact tests but the side query, of angles, segments and buckets: each line is one. A line that does not have as much as
// its tag says, and nothing behind it, differs.
#![tactic(auto)]

use test_text::{Failure, Reader};

mod angles;
mod tests;

// The sample whose line stands here.
pub fn agrees(line: Reader) -> Result<(), Failure> {
    match line.peek() {
        Some(b'i') => tests::circle_sample(line),
        Some(b'b') => tests::behind_sample(line),
        Some(b'a') => angles::angle_sample(line),
        Some(b's') => angles::segment_sample(line),
        Some(b'f') => angles::floor_sample(line),
        _ => Err(Failure::Differs),
    }
}

// An answer: 1 or 0.
fn read_answer(text: &mut Reader) -> Result<bool, Failure> {
    match text.entry::<u64>()? {
        0 => Ok(false),
        1 => Ok(true),
        _ => Err(Failure::Differs),
    }
}
