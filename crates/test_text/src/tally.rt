// What came of the cases of a list.
ghost use Rattle.std.specs.Prelude.{◌≡◌, true, false};

use std::fmt;

// How many cases agree and differ, and the byte where the first that differs begins.
#[derive(Clone, Copy, Default)]
pub struct Tally {
    pub agree: u32,
    pub differ: u32,
    pub first: Option<usize>,
}

impl Tally {
    // One case more, which begins at a byte.
    pub fn count(&mut self, agrees: bool, at: usize)
        ensures agree { agrees ≡ false → self.new.agree ≡ self.old.agree }
        ensures differ { agrees ≡ true → self.new.differ ≡ self.old.differ }
        ensures first { agrees ≡ true → self.new.first ≡ self.old.first }
    {
        if agrees {
            self.agree = self.agree.saturating_add(1);
        } else {
            self.differ = self.differ.saturating_add(1);
            self.first = self.first.or(Some(at));
        }
    }
}

impl fmt::Display for Tally {
    fn fmt<W: fmt::Write>(&self, f: &mut fmt::Formatter<W>) -> fmt::Result {
        let agree = self.agree;
        let differ = self.differ;
        write!(f, "agree {agree} differ {differ}")?;
        match self.first {
            None => Ok(()),
            Some(first) => write!(f, " first at byte {first}"),
        }
    }
}
