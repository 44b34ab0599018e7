// Lists every text of a list of cases and prints how many listings agree with those that must come, in length and in every byte. The list
// is in data/, a copy of the one that tests/reference makes from an independent reading of the specification (its format is in
// tests/reference/README.md). A list that is not whole counts as one difference more.
#![tactic(auto)]

ghost use Rattle.std.specs.Prelude.{◌<◌, length, OnOk};

use std::io;
use test_text::tally::Tally;
use test_text::{Failure, Reader};

// No list is as long as this.
const LIST: usize = 1048576;

// No listing is: `listing_run::list` says that it has at most 42,949 bytes.
const ROW: usize = 65536;

// An input and what must be printed for it.
#[derive(Clone, Copy)]
struct Case<'a> {
    given: &'a [u8],
    told: &'a [u8],
}

impl Case<'_> {
    // Whether the listing of the input is the one that must come.
    fn agrees(self) -> bool {
        let mut row = [0; ROW];
        let end = listing_run::list(self.given, &mut row);
        &row[..end] == self.told
    }
}

// The case whose line `b` stands here.
fn read_case<'a>(text: &mut Reader<'a>) -> Result<Case<'a>, Failure>
    ensures { OnOk result (length text.new.rest.now < length text.old.rest.now) }
{
    let given = text.counted_bytes(b'b')?;
    let told = text.counted_bytes(b'e')?;
    Ok(Case { given, told })
}

// Whether the line `z` that stands here is the last one and has the number of cases.
fn is_closing(mut text: Reader, tally: Tally) -> bool {
    let cases = u64::from(tally.agree) + u64::from(tally.differ);
    text.line_of(b'z', &[cases]).is_ok() && text.rest.is_empty()
}

// Every case of the list, and whether the list is closed. Behind a case that cannot be read nothing is.
fn run(list: &[u8]) -> (Tally, bool) {
    let mut tally = Tally::default();
    let mut rest = Reader { rest: list };
    while let Some(tag) = rest.peek() {
        if tag == b'z' {
            return (tally, is_closing(rest, tally));
        }
        if tag == b'#' {
            rest.next_line();
            continue;
        }
        let at = list.len() - rest.rest.len();
        let Ok(case) = read_case(&mut rest) else {
            tally.count(false, at);
            return (tally, false);
        };
        tally.count(case.agrees(), at);
    }
    (tally, false)
}

// The result of a list: whether nothing of it was cut off counts too.
fn replay(list: &[u8]) -> Tally {
    let (mut tally, is_closed) = run(list);
    if !is_closed || list.len() == LIST {
        tally.count(false, list.len());
    }
    tally
}

fn main(rt: HostRuntime) -> io::Result<()> {
    let list = test_text::read_list(&rt, rt.alloc(), "listing.txt", LIST)?;
    let tally = replay(&list);
    println!(rt; "listing {tally}")
}
