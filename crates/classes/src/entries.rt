// Entries in three lists.
ghost use Rattle.std.specs.Prelude.{◌≡◌, ◌^◌, ◌≤◌, length};
ghost use Rattle.pattern.specs.Filters.{within};

use pattern::Pattern;

// The first `len` entries of three lists: care masks, values, and sizes at the same places.
#[derive(Clone, Copy)]
pub struct Entries<'a> {
    pub cares: &'a [u32],
    pub values: &'a [u32],
    pub sizes: &'a [u64],
    pub len: usize,
    pub ghost in_cares: { len ≤ length cares.now },
    pub ghost in_values: { len ≤ length values.now },
    pub ghost in_sizes: { len ≤ length sizes.now },
}

impl Entries<'_> {
    ghost use Rattle.classes.specs.Steps.{sum_if, rows_from};

    // The sizes of those from `from` on that lie within `p`, together. Each size is read before its entry is tested, so that the
    // compiler can do several at once.
    pub fn within_sum(self, from: usize, p: Pattern) -> u64
        requires begins { from ≤ self.len }
        requires bound { sum_if (λ q. within q p) (rows_from self from) ≤ 2 ^ 32 }
        ensures { result ≡ sum_if (λ q. within q p) (rows_from self.entry from) }
    {
        let mut sum: u64 = 0;
        for j in from..self.len {
            let q = Pattern {
                care: self.cares[j],
                value: self.values[j],
            };
            let size = self.sizes[j];
            if q.within(p) {
                sum += size;
            }
        }
        sum
    }
}
