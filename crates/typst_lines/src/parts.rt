//! Where lines begin in a text of three parts.
ghost use Rattle.std.specs.Prelude.{◌≡◌, ◌≢◌, ◌+◌, ◌-◌, ◌^◌, ◌≤◌, ◌<◌, ◌++◌, take, drop, length, slice_index};
ghost use Rattle.typst_lines.specs.LineStarts.{begins_line, starts_between};
ghost use Rattle.typst_lines.specs.LineEnds.{newline_before};
ghost use Rattle.typst_lines.specs.declared.ends.LineEnds.TheVariants.{Unicode};
ghost use Rattle.typst_lines.specs.Parts.{whole, near, starts_about};

use crate::ends::LineEnds;

/// How many bytes after a place may belong to a line end that began before it: one less than the widest line end has.
const REACH: usize = 2;

/// A text in three parts, one after the other.
#[derive(Clone, Copy)]
pub(crate) struct Parts<'a> {
    /// The text before the middle.
    pub(crate) front: &'a [u8],
    /// The middle.
    pub(crate) middle: &'a [u8],
    /// The text after the middle.
    pub(crate) back: &'a [u8],
    /// What ends its lines.
    pub(crate) ends: LineEnds,
}

/// A text in one part.
pub(crate) fn whole_text(text: &[u8], ends: LineEnds) -> Parts<'_>
    ensures text { whole result ≡ text.now }
    ensures ends { result.ends ≡ ends }
{
    Parts {
        front: text,
        middle: &[],
        back: &[],
        ends,
    }
}

impl Parts<'_> {
    /// The byte at a place, or 0 after the text.
    fn byte(&self, at: usize) -> u8
        ensures { result ≡ slice_index (whole self.now) at }
    {
        let front = self.front.len();
        if at < front {
            return self.front[at];
        }
        let middle = self.middle.len();
        if at - front < middle {
            return self.middle[at - front];
        }
        let behind = at - front - middle;
        if behind < self.back.len() {
            self.back[behind]
        } else {
            0
        }
    }

    /// Whether a character of Unicode's line ends, but no carriage return, ends before a place. The last byte before the
    /// place is `last`.
    fn ends_by_unicode(&self, at: usize, last: u8) -> bool
        requires some { 1 ≤ at }
        requires last { last ≡ slice_index (whole self.now) (at - 1) }
        requires other { last ≢ 13 }
        ensures { result ≡ newline_before Unicode (whole self.now) at }
    {
        if last == 0x85 {
            return at >= 2 && self.byte(at - 2) == 0xC2;
        }
        if last == 0xA8 || last == 0xA9 {
            return at >= 3 && self.byte(at - 3) == 0xE2 && self.byte(at - 2) == 0x80;
        }
        last >= 10 && last <= 12
    }

    /// Whether a line begins at a place.
    pub(crate) fn begins_line(&self, at: usize) -> bool
        ensures { result ≡ begins_line self.now.ends (whole self.now) at }
    {
        if at == 0 {
            return true;
        }
        let last = self.byte(at - 1);
        if last == b'\r' {
            return self.byte(at) != b'\n';
        }
        match self.ends {
            LineEnds::Unicode => self.ends_by_unicode(at, last),
            LineEnds::Editor => last == b'\n',
        }
    }

    /// How many lines begin between two places.
    fn count_starts(&self, from: usize, to: usize) -> usize
        ensures { result ≡ length (starts_between self.now.ends (whole self.now) from to) }
    {
        (from..to).filter(|at| self.begins_line(*at)).count()
    }

    /// Writes where the lines between two places begin, over the numbers from `first` on.
    fn write_starts(&self, from: usize, to: usize, starts: &mut [usize], first: usize)
        requires window { from ≤ to }
        requires room { first + length (starts_between self.now.ends (whole self.now) from to) ≤ length starts.old }
        ensures { starts.new ≡ take first starts.old
            ++ (starts_between self.now.ends (whole self.now) from to
            ++ drop (first + length (starts_between self.now.ends (whole self.now) from to)) starts.old) }
    {
        let mut count = first;
        for at in from..to {
            if self.begins_line(at) {
                starts[count] = at;
                count += 1;
            }
        }
    }

    /// How many bytes after the middle part may belong to a line end that began before them.
    pub(crate) fn near(&self) -> usize
        ensures { result ≡ near self.now }
    {
        self.back.len().min(REACH)
    }

    /// The place after all that the middle part decides.
    fn about_end(&self) -> usize
        requires { length (whole self.now) < 2 ^ 64 - 1 }
        ensures { result ≡ length self.now.front.now + length self.now.middle.now + near self.now + 1 }
    {
        self.front.len() + self.middle.len() + self.near() + 1
    }

    /// How many lines begin where the middle part decides it.
    pub(crate) fn count_about(&self) -> usize
        requires { length (whole self.now) < 2 ^ 64 - 1 }
        ensures { result ≡ length (starts_about self.now) }
    {
        self.count_starts(self.front.len(), self.about_end())
    }

    /// Writes where these lines begin, over the numbers from `first` on.
    pub(crate) fn write_about(&self, starts: &mut [usize], first: usize)
        requires fits { length (whole self.now) < 2 ^ 64 - 1 }
        requires room { first + length (starts_about self.now) ≤ length starts.old }
        ensures { starts.new ≡ take first starts.old
            ++ (starts_about self.now ++ drop (first + length (starts_about self.now)) starts.old) }
    {
        self.write_starts(self.front.len(), self.about_end(), starts, first);
    }
}
