// What text an answer becomes: the lines of the printed verdict.
#![tactic(auto)]

ghost use Rattle.std.specs.Prelude.{◌≡◌, [], false, ◌<◌, length, get_or};
ghost use Rattle.std.specs.Iterator.{YieldsFirstBy, item_count};
ghost use Rattle.printing.specs.Lines.{class_at, lines};
ghost use Rattle.judge.specs.Judging.{Lent, lent_of};
ghost use Rattle.printing.specs.Asked.{Bounded, Lengths};

mod kinds;
mod pieces;

use arrayvec::ArrayString;
use judge::Judged;
pub use kinds::put_refused;
use kinds::{put_class, put_class_count, put_counts, put_verdict};
use pattern::{Pattern, Width};
use reading::Refusal;

// A line of the printed verdict, its line feed with it. None is longer than 300 bytes.
pub type Line = ArrayString<300>;

// What is printed: Judge's answer, and what it left in the lent lists.
#[derive(Clone, Copy)]
pub struct Printed<'a> {
    pub answer: Result<Judged, Refusal>,
    pub cares: &'a [u32],
    pub values: &'a [u32],
    pub sizes: &'a [u64],
    pub cycle: &'a [u8],
    pub ghost bounded: { Bounded answer },
    pub ghost lengths: { Lengths (lent_of cares.now values.now sizes.now cycle.now) },
}

// Its lines, one after the other.
#[derive(Drop)]
pub struct Lines<'a> {
    printed: Printed<'a>,
    next: usize,
}

// How many lines an answer has, whatever stands in the lists.
#[tactic(auto, using(crate::proofs::ByNumber::judged_length))]
pub fn line_count(answer: Result<Judged, Refusal>) -> usize
    requires { Bounded answer }
    ensures { (l : Lent) → result ≡ length (lines answer l) }
{
    match answer {
        Err(_) => 1,
        Ok(judged) => judged.classes + 3,
    }
}

impl<'a> Printed<'a> {
    ghost use Rattle.printing.specs.Left.{lent_in, lines_of, lines_left};

    // All its lines, in their order.
    pub fn lines(self) -> Lines<'a>
        ensures { lines_left result ≡ lines_of self.entry }
    {
        Lines {
            printed: self,
            next: 0,
        }
    }

    // How many lines it has.
    pub fn line_count(self) -> usize
        ensures { (l : Lent) → result ≡ length (lines self.entry.answer l) }
    {
        line_count(self.answer)
    }

    // The class that stands at place i of the lists, in the place of what `line` held.
    fn put_class_at(self, line: &mut Line, width: Width, i: usize)
        requires { i < 1024 }
        ensures { line.new.bytes ≡ class_at width.bits (lent_in self.entry) i }
    {
        let pattern = Pattern {
            care: self.cares[i],
            value: self.values[i],
        };
        put_class(line, width, pattern, self.sizes[i]);
    }

    // Line k of the printed verdict, counted from 0, in the place of what `line` held.
    pub fn put_line(self, line: &mut Line, k: usize)
        requires { k < length (lines_of self) }
        ensures { line.new.bytes ≡ get_or (lines_of self.entry) k [] }
    {
        let judged = match self.answer {
            Err(refusal) => {
                put_refused(line, u8::from(refusal.reason), refusal.place);
                return;
            }
            Ok(judged) => judged,
        };
        let width = Width {
            bits: judged.figures.width,
        };
        match k {
            0 => put_counts(line, judged.figures),
            1 => put_class_count(line, judged.classes),
            _ if k < judged.classes + 2 => self.put_class_at(line, width, k - 2),
            _ => put_verdict(line, width, judged.verdict, self.cycle),
        }
    }

    // Line k of the printed verdict, counted from 0.
    pub fn line(self, k: usize) -> Line
        requires { k < length (lines_of self) }
        ensures { result.bytes ≡ get_or (lines_of self.entry) k [] }
    {
        let mut line = Line::new();
        self.put_line(&mut line, k);
        line
    }
}

impl Lines<'_> {
    ghost use Rattle.printing.specs.Left.{lines_left, TakesFirst};

    // Puts the next line in the place of what `line` held; where none is left, it answers false and `line` stays.
    pub fn put_next(&mut self, line: &mut Line) -> bool
        ensures next { TakesFirst self.old result line.new.bytes self.new }
        ensures kept { result ≡ false → line.new.bytes ≡ line.old.bytes }
    {
        if self.next >= self.printed.line_count() {
            return false;
        }
        self.printed.put_line(line, self.next);
        self.next += 1;
        true
    }
}

impl Iterator for Lines<'_> {
    ghost use Rattle.printing.specs.Left.{lines_left};

    type Item = Line;

    ghost next_gives = { YieldsFirstBy (λ line. line.bytes) lines_left };

    ghost remaining = { item_count lines_left };

    fn next(&mut self) -> Option<Line> {
        let mut line = Line::new();
        if self.put_next(&mut line) {
            return Some(line);
        }
        None
    }
}
