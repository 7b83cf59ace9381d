// Taking in one filter: the entries are divided by it in place, the last first.
ghost use Rattle.std.specs.Prelude.{◌≡◌, true, ◌+◌, ◌-◌, ◌^◌, ◌≤◌, ◌<◌, length, get_or, MatchResult};
ghost use Rattle.pattern.specs.Filters.{within};
ghost use Rattle.classes.specs.Classes.{tally};
ghost use Rattle.classes.specs.Steps.{sum_if, moved, cut, sift_one, sift, cover, taken_in, SoundOne, Sound, rows, SameFrom, entry_at, entries_from, entries, Stands, Lacks, Became, Took};

use crate::entries::Entries;
use crate::places::Listing;
use pattern::{Pattern, Width};

// A filter on headers of a width: it cares about no other bits.
#[derive(Clone, Copy)]
pub struct Filter {
    pub width: Width,
    pub pattern: Pattern,
    pub ghost fits: { pattern.care < 2 ^ width.bits },
}

// Whether `p` has a part in `f` and a part outside.
fn is_cut(p: Pattern, f: Pattern) -> bool
    ensures { result ≡ cut p f }
{
    p.agrees(f) && !p.within(f)
}

// The cared bits of those of the filters that `f` lies within, together.
fn cover_of(filters: &[Pattern], f: Pattern) -> u32
    ensures { result ≡ cover f filters.now }
{
    let mut all: u32 = 0;
    for g in filters {
        if f.within(*g) {
            all |= g.care;
        }
    }
    all
}

impl Listing<'_> {
    // `p` among the entries from `from` on: the place where it stands, or the one where it is to be put in.
    fn place(&self, from: usize, p: Pattern) -> Result<usize, usize>
        requires { from ≤ self.now.len }
        ensures { MatchResult result
            (λ i. Stands p self.now.cares.now self.now.values.now from self.now.len i)
            (λ i. Lacks p self.now.cares.now self.now.values.now from self.now.len i) }
    {
        let cares = &*self.cares;
        for i in from..self.len {
            // The care masks first: most entries are passed by them alone.
            if p.care <= cares[i] && p <= self.pattern(i) {
                return if p == self.pattern(i) { Ok(i) } else { Err(i) };
            }
        }
        Err(self.len)
    }

    // `k` more headers of `p`, among the entries from `from` on.
    #[tactic(auto, using(crate::proofs::Steps::add_fits))]
    fn add_entry(&mut self, from: usize, p: Pattern, k: u64)
        requires few { self.old.len < 1024 }
        requires begins { from ≤ self.old.len }
        requires small { sum_if (λ q. true) (entries_from self.old from) ≤ 2 ^ 32 }
        requires part { k ≤ 2 ^ 32 }
        ensures { Became from (tally p k (entries_from self.old from)) self.new self.old }
    {
        match self.place(from, p) {
            Ok(i) => {
                let s = self.sizes[i];
                self.resize(i, s + k);
            }
            Err(i) => self.insert(i, p, k),
        }
    }

    // `k` headers of entry `i` go over to `p`, whose place is later.
    #[tactic(auto, using(crate::proofs::Steps::moved_none, crate::proofs::Steps::removed_is, crate::proofs::Steps::moved_whole, crate::proofs::Steps::left_is))]
    fn move_part(&mut self, i: usize, p: Pattern, k: u64)
        requires few { self.old.len < 1024 }
        requires inside { i < self.old.len }
        requires small { sum_if (λ q. true) (entries_from self.old (i + 1)) ≤ 2 ^ 32 }
        requires part { k ≤ 2 ^ 32 }
        requires fewer { k ≤ get_or self.old.sizes.now i 0 }
        ensures { Became i (moved (entry_at self.old i) p k (entries_from self.old (i + 1))) self.new self.old }
    {
        if k == 0 {
            return;
        }
        let s = self.sizes[i];
        if k == s {
            self.remove(i);
            self.add_entry(i, p, k);
            return;
        }
        self.resize(i, s - k);
        self.add_entry(i + 1, p, k);
    }

    // The sizes of the entries from `from` on that lie within `p`, together.
    fn within_sum(&self, from: usize, p: Pattern) -> u64
        requires begins { from ≤ self.now.len }
        requires bound { sum_if (λ q. within q p) (entries_from self.now from) ≤ 2 ^ 32 }
        ensures { result ≡ sum_if (λ q. within q p) (entries_from self.now from) }
    {
        let all = Entries {
            cares: self.cares,
            values: self.values,
            sizes: self.sizes,
            len: self.len,
        };
        all.within_sum(from, p)
    }

    // Entry `i` is divided by the filter.
    fn sift_one(&mut self, i: usize, f: Filter)
        requires few { self.old.len < 1024 }
        requires inside { i < self.old.len }
        requires sound { SoundOne f.width.bits f.pattern (entry_at self.old i) (entries_from self.old (i + 1)) }
        ensures { Became i (sift_one f.width.bits f.pattern (entry_at self.old i) (entries_from self.old (i + 1))) self.new self.old }
    {
        let p = self.pattern(i);
        if is_cut(p, f.pattern) {
            let part = p.common(f.pattern);
            let h = part.held(f.width);
            let s = self.within_sum(i + 1, part);
            self.move_part(i, part, h - s);
        }
    }

    // Takes in a filter, the last entry first.
    fn take_in(&mut self, f: Filter)
        requires few { self.old.len ≤ 512 }
        requires sound { Sound f.width.bits f.pattern (entries self.old) }
        ensures { Took (sift f.width.bits f.pattern (entries self.old)) self.new self.old }
    {
        for i in (0..self.len).rev() {
            self.sift_one(i, f);
        }
    }

    // Takes in filter `f` after the earlier ones, unless it is the common part of those that it lies within: then no header's
    // pattern changes.
    pub fn take_next(&mut self, earlier: &[Pattern], f: Filter)
        requires few { self.old.len ≤ 512 }
        requires sound { Sound f.width.bits f.pattern (entries self.old) }
        ensures { Took (taken_in f.width.bits f.pattern earlier.now (entries self.old)) self.new self.old }
    {
        if cover_of(earlier, f.pattern) != f.pattern.care {
            self.take_in(f);
        }
    }
}

// Takes in filter `f` after the earlier ones, in lent lists of 1,024 entries or more of which the first `n` stand; the number of
// entries that stand then.
pub fn take_next(
    earlier: &[Pattern],
    f: Filter,
    cares: &mut [u32],
    values: &mut [u32],
    sizes: &mut [u64],
    n: usize,
) -> usize
    requires cares { 1024 ≤ length cares.old }
    requires values { 1024 ≤ length values.old }
    requires sizes { 1024 ≤ length sizes.old }
    requires few { n ≤ 512 }
    requires sound { Sound f.width.bits f.pattern (rows cares.old values.old sizes.old 0 n) }
    ensures entries { rows cares.new values.new sizes.new 0 result ≡ taken_in f.width.bits f.pattern earlier.now (rows cares.old values.old sizes.old 0 n) }
    ensures twice { result ≤ n + n }
    ensures cares { (length cares.new ≡ length cares.old) × SameFrom 1024 cares.new cares.old }
    ensures values { (length values.new ≡ length values.old) × SameFrom 1024 values.new values.old }
    ensures sizes { (length sizes.new ≡ length sizes.old) × SameFrom 1024 sizes.new sizes.old }
{
    // None of the three is shorter.
    let Some(cares) = cares.first_chunk_mut::<1024>() else {
        unreachable!();
    };
    let Some(values) = values.first_chunk_mut::<1024>() else {
        unreachable!();
    };
    let Some(sizes) = sizes.first_chunk_mut::<1024>() else {
        unreachable!();
    };
    let mut list = Listing {
        cares,
        values,
        sizes,
        len: n,
    };
    list.take_next(earlier, f);
    list.len
}
