// A class list in three lent lists: an entry put in, one taken out, and the places after the last one cleared.
ghost use Rattle.std.specs.Prelude.{◌≡◌, ◌+◌, ◌-◌, ◌≤◌, ◌<◌};
ghost use Rattle.classes.specs.Given.{pattern_at};

use crate::lists::{put_in, take_out};
use pattern::Pattern;

// A class list under way: the first `len` entries of the lent lists.
#[derive(Drop)]
pub struct Listing<'a> {
    pub cares: &'a mut [u32; 1024],
    pub values: &'a mut [u32; 1024],
    pub sizes: &'a mut [u64; 1024],
    pub len: usize,
    pub ghost short: { len ≤ 1024 },
}

impl Listing<'_> {
    ghost use Rattle.classes.specs.Steps.{Changed, Resized, inserted, removed, wiped};

    // The pattern at place `i`.
    pub fn pattern(&self, i: usize) -> Pattern
        requires { i < 1024 }
        ensures { result ≡ pattern_at self.now.cares.now self.now.values.now i }
    {
        let cares = &*self.cares;
        let values = &*self.values;
        Pattern {
            care: cares[i],
            value: values[i],
        }
    }

    // `p` with size `k` at place `i`; those from there on go one place up.
    pub fn insert(&mut self, i: usize, p: Pattern, k: u64)
        requires few { self.old.len < 1024 }
        requires inside { i ≤ self.old.len }
        ensures { Changed (inserted i self.old.len p.care) (inserted i self.old.len p.value) (inserted i self.old.len k) (self.old.len + 1) self.new self.old }
    {
        let n = self.len;
        let cares = &mut *self.cares;
        put_in(cares, i, n, p.care);
        let values = &mut *self.values;
        put_in(values, i, n, p.value);
        let sizes = &mut *self.sizes;
        put_in(sizes, i, n, k);
        self.len = n + 1;
    }

    // The size of entry `i` is `k`.
    pub fn resize(&mut self, i: usize, k: u64)
        requires { i < 1024 }
        ensures { Resized i k self.new self.old }
    {
        let sizes = &mut *self.sizes;
        sizes[i] = k;
    }

    // Place `i` goes; those after it go one place down.
    pub fn remove(&mut self, i: usize)
        requires { i < self.old.len }
        ensures { Changed (removed i self.old.len) (removed i self.old.len) (removed i self.old.len) (self.old.len - 1) self.new self.old }
    {
        let n = self.len;
        let cares = &mut *self.cares;
        take_out(cares, i, n);
        let values = &mut *self.values;
        take_out(values, i, n);
        let sizes = &mut *self.sizes;
        take_out(sizes, i, n);
        self.len = n - 1;
    }

    // The first `from` entries stay, and the places after them are 0.
    #[tactic(auto, unfolding(crate::specs::Steps::wiped))]
    pub fn clear(&mut self, from: usize)
        requires { from ≤ 1024 }
        ensures { Changed (wiped from) (wiped from) (wiped from) from self.new self.old }
    {
        let cares = &mut *self.cares;
        cares[from..].fill(0);
        let values = &mut *self.values;
        values[from..].fill(0);
        let sizes = &mut *self.sizes;
        sizes[from..].fill(0);
        self.len = from;
    }
}
