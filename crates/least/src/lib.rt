// The least header of the marked classes, by prefixes from the top bit.
#![tactic(auto)]

ghost use Rattle.std.specs.Prelude.{◌≡◌, not, ◌&&◌, ◌-◌, ◌^◌, ◌≤◌, ◌<◌, eqb, length, get_or};
ghost use Rattle.std.specs.List.{list_any, zip};
ghost use Rattle.pattern.specs.Filters.{WellFormed};
ghost use Rattle.least.specs.Counting.{AlwaysEnough, always_prop};

use classes::entries::Entries;
use pattern::{Pattern, Width};

// Patterns in two lists: the care masks, and the values at the same places.
#[derive(Clone, Copy)]
pub struct Patterns<'a> {
    pub cares: &'a [u32],
    pub values: &'a [u32],
    pub ghost paired: { length values.now ≡ length cares.now },
}

impl Patterns<'_> {
    ghost use Rattle.least.specs.Steps.{pattern_in};

    // How many there are.
    pub fn len(self) -> usize
        ensures { result ≡ length self.entry.cares.now }
    {
        self.cares.len()
    }

    // The pattern at place `i`.
    pub fn at(self, i: usize) -> Pattern
        requires { i < length self.cares.now }
        ensures { result ≡ pattern_in self.entry i }
    {
        Pattern {
            care: self.cares[i],
            value: self.values[i],
        }
    }
}

// At most 512 listed classes of a header width, and which of them are marked; `enough`: counting under a prefix goes below 0 nowhere.
#[derive(Clone, Copy)]
pub struct MarkedClasses<'a, 'm> {
    pub width: Width,
    pub listed: Patterns<'a>,
    pub marks: &'m [bool],
    pub ghost few: { length listed.cares.now ≤ 512 },
    pub ghost paired: { length marks.now ≡ length listed.cares.now },
    pub ghost enough: { AlwaysEnough width.bits listed.cares.now listed.values.now } by { always_prop width.bits listed.cares.now listed.values.now },
}

// The classes under a prefix: a pattern of their width.
#[derive(Clone, Copy)]
struct Under<'a, 'm> {
    classes: MarkedClasses<'a, 'm>,
    prefix: Pattern,
    ghost formed: { WellFormed classes.width.bits prefix },
}

impl Under<'_, '_> {
    ghost use Rattle.least.specs.Steps.{pattern_in, patterns_of, entries_of, later_in, under};
    ghost use Rattle.least.specs.Counting.{shared, recount};

    // How many headers the prefix shares with `p`.
    fn shared_size(self, p: Pattern) -> u64
        requires { p.care < 2 ^ self.classes.width.bits }
        ensures { result ≡ shared self.entry.classes.width.bits self.entry.prefix p }
    {
        if p.agrees(self.prefix) {
            return p.common(self.prefix).held(self.classes.width);
        }
        0
    }

    // The number of headers of class `i`, from those of the classes after it; where its pattern and the prefix share none,
    // nothing is summed.
    fn count_at(self, counts: &[u64; 512], i: usize) -> u64
        requires inside { i < length self.classes.listed.cares.now }
        requires bits { get_or self.classes.listed.cares.now i 0 < 2 ^ self.classes.width.bits }
        requires enough { later_in self.classes.listed counts.now i ≤ shared self.classes.width.bits self.prefix (pattern_in self.classes.listed i) }
        ensures { result ≡ shared self.entry.classes.width.bits self.entry.prefix (pattern_in self.entry.classes.listed i) - later_in self.entry.classes.listed counts.now i }
    {
        let listed = self.classes.listed;
        let p = listed.at(i);
        let all = self.shared_size(p);
        if all == 0 {
            return 0;
        }
        let counted = Entries {
            cares: listed.cares,
            values: listed.values,
            sizes: counts,
            len: listed.len(),
        };
        let later = counted.within_sum(i + 1, p);
        all - later
    }

    // The number of headers of each class, the last class first.
    fn count(self, counts: &mut [u64; 512])
        ensures { entries_of self.entry.classes.listed counts.new ≡ recount self.entry.classes.width.bits self.entry.prefix (patterns_of self.entry.classes.listed) }
    {
        for i in (0..self.classes.listed.len()).rev() {
            counts[i] = self.count_at(counts, i);
        }
    }

    // Whether a marked class has a header.
    fn some(self, counts: &mut [u64; 512]) -> bool
        ensures { result ≡ under self.entry.classes self.entry.prefix }
    {
        self.count(counts);
        some_marked(self.classes.marks, counts)
    }
}

impl MarkedClasses<'_, '_> {
    ghost use Rattle.least.specs.Steps.{under, search};

    // The least header of the marked classes, bit by bit: a bit is 0 where a header of theirs stands under the prefix so made.
    pub fn least(self, counts: &mut [u64; 512]) -> u32
        ensures { result ≡ search (under self.entry) self.entry.width.bits self.entry.width.bits 0 }
    {
        let mut prefix = Pattern::ALL_FREE;
        for k in (0..self.width.bits).rev() {
            let bit = 1u32 << k;
            prefix.care += bit;
            let asked = Under {
                classes: self,
                prefix,
            };
            if !asked.some(counts) {
                prefix.value += bit;
            }
        }
        prefix.value
    }
}

// Whether a class is marked.
pub fn any_marked(marks: &[bool]) -> bool
    ensures { result ≡ list_any (λ m. m) marks.now }
{
    marks.iter().any(|m| *m)
}

// Whether a marked class has a header counted.
fn some_marked(marks: &[bool], counts: &[u64]) -> bool
    ensures { result ≡ list_any (λ e. e.0 && not (eqb e.1 0)) (zip marks.now counts.now) }
{
    marks.iter().zip(counts).any(|(m, c)| *m && *c != 0)
}
