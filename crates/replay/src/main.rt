// Runs every fixed list of cases and prints one line for each: its name, and how many cases agree and differ. The lists are in data/,
// copies of those that tests/reference makes from an independent reading of the specification, and of oracle/answers.txt, the answers of
// the Rust itself (their formats are in tests/reference/README.md and oracle/FORMAT.md). The lists of the calls, and the side queries among
// the samples, go through the exports of the crate `fithmoul`. A list that is not whole counts as one difference more.
#![tactic(auto)]

ghost use Rattle.std.specs.Prelude.{◌≤◌, ◌-◌, length};

use std::io;
use std::rt::Files;
use test_text::tally::Tally;
use test_text::{Failure, Reader};

// No list is as long as this.
const TEXT: usize = 2097152;

// A list, by the call that it is about; `Answers` are those of the Rust.
#[derive(Clone, Copy)]
enum List {
    Samples,
    Check,
    Finish,
    Locate,
    Step,
    Run,
    Volume,
    Ask,
    Commit,
    BulkLoad,
    Answers,
}

// In the order in which they are run.
const LISTS: [List; 11] = [
    List::Samples,
    List::Check,
    List::Finish,
    List::Locate,
    List::Step,
    List::Run,
    List::Volume,
    List::Ask,
    List::Commit,
    List::BulkLoad,
    List::Answers,
];

impl List {
    // The list's file: its name, and `.txt`.
    fn path(self) -> &'static str {
        match self {
            List::Samples => "samples.txt",
            List::Check => "check.txt",
            List::Finish => "finish.txt",
            List::Locate => "locate.txt",
            List::Step => "step.txt",
            List::Run => "run.txt",
            List::Volume => "volume.txt",
            List::Ask => "ask.txt",
            List::Commit => "commit.txt",
            List::BulkLoad => "bulk_load.txt",
            List::Answers => "answers.txt",
        }
    }

    // Whether a line is a case or begins one. Comments and the closing line do not; for `locate` a mesh has several lines `l`, and each
    // is a case.
    fn has_case(self, tag: u8) -> bool {
        match self {
            List::Locate => tag == b'l',
            _ => tag != b'#' && tag != b'z',
        }
    }

    // Goes on behind the last line of the case that begins here.
    fn skip_case(self, text: &mut Reader)
        ensures { length text.new.rest.now ≤ length text.old.rest.now - 1 }
    {
        match self {
            List::Samples | List::Locate => text.next_line(),
            List::Volume => text.behind_line(b'a'),
            List::Answers => text.behind_line(b'e'),
            _ => text.behind_line(b'r'),
        }
    }

    // The case that begins at a line; the last line `m` is the mesh of a case of `locate`.
    fn case(self, mesh: Reader, line: Reader) -> Result<(), Failure> {
        match self {
            List::Samples => sample(line),
            List::Check => replay_calls::check_cases::agrees(line),
            List::Finish => replay_runs::finish_cases::agrees(line),
            List::Locate => replay_calls::locate_cases::agrees(mesh, line),
            List::Step => replay_calls::step_cases::agrees(line),
            List::Run => replay_runs::run_cases::agrees(line),
            List::Volume => replay_calls::volume_cases::agrees(line),
            List::Ask => replay_quotes::ask_cases::agrees(line),
            List::Commit => replay_quotes::commit_cases::agrees(line),
            List::BulkLoad => replay_loads::bulk_load_cases::agrees(line),
            List::Answers => replay_runs::answers_cases::agrees(line),
        }
    }

    // Whether nothing of the list was cut off. The oracle's list has no closing line.
    fn is_whole(self, text: &[u8]) -> bool {
        match self {
            _ if text.len() == TEXT => false,
            List::Answers => true,
            _ => Reader::new(text).is_whole_list(),
        }
    }

    // Every case of the list.
    fn replay(self, text: &[u8]) -> Tally {
        let mut tally = Tally::default();
        let mut rest = Reader { rest: text };
        let mut mesh = rest;
        while let Some(tag) = rest.peek() {
            if tag == b'm' {
                mesh = rest;
            }
            if self.has_case(tag) {
                let at = text.len() - rest.rest.len();
                tally.count(test_text::agrees(self.case(mesh, rest)), at);
                self.skip_case(&mut rest);
            } else {
                rest.next_line();
            }
        }
        if !self.is_whole(text) {
            tally.count(false, text.len());
        }
        tally
    }
}

// A side query, or another test.
fn sample(line: Reader) -> Result<(), Failure> {
    if line.peek() == Some(b'o') {
        replay_calls::side_cases::agrees(line)
    } else {
        replay_samples::agrees(line)
    }
}

// One line: the list's name, the totals, and where the first difference is.
fn replay(rt: &(impl Files + AllocGlobal + Print), list: List) -> io::Result<()> {
    let path = list.path();
    let name = path.trim_end_matches(".txt");
    let text = test_text::read_list(rt, rt.alloc(), path, TEXT)?;
    let tally = list.replay(&text);
    println!(rt; "{name} {tally}")
}

fn main(rt: HostRuntime) -> io::Result<()> {
    for list in LISTS {
        replay(&rt, list)?;
    }
    Ok(())
}
