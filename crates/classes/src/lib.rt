// The class list of a set of filters: each class's pattern and size, in order, in three lent lists.
#![tactic(auto)]

ghost use Rattle.std.specs.Prelude.{◌≡◌, ◌≤◌, length};
ghost use Rattle.classes.specs.Classes.{laid, care_at, value_at, size_of};
ghost use Rattle.classes.specs.Given.{counted, listed, AllWellFormed};
ghost use Rattle.classes.specs.Steps.{Gathered};

pub mod entries;
mod lists;
mod places;
pub mod taking;

use pattern::{Pattern, Width};
use places::Listing;
use taking::Filter;

// The class list of the filters, filter by filter, and the number of classes; it stops as soon as more than 512 entries stand.
#[tactic(auto, using(crate::proofs::Grow::good_at, crate::proofs::Whole::building_step, crate::proofs::Whole::gathered_many))]
fn gather(list: &mut Listing, filters: &[Pattern], width: Width) -> Option<usize>
    requires empty { list.old.len ≡ 0 }
    requires formed { AllWellFormed width.bits filters.now }
    ensures { Gathered width.bits filters.now result list.new list.old }
{
    list.insert(0, Pattern::ALL_FREE, width.headers());
    for (j, f) in filters.iter().enumerate() {
        list.take_next(&filters[..j], Filter { width, pattern: *f });
        if 512 < list.len {
            return None;
        }
    }
    Some(list.len)
}

// The class list of the filters in the first 1,024 entries of the lent lists, and its length; or none where there are more than 512
// classes.
pub fn build(
    filters: &[Pattern],
    width: Width,
    cares: &mut [u32],
    values: &mut [u32],
    sizes: &mut [u64],
) -> Option<usize>
    requires cares { 1024 ≤ length cares.old }
    requires values { 1024 ≤ length values.old }
    requires sizes { 1024 ≤ length sizes.old }
    requires formed { AllWellFormed width.bits filters.now }
    ensures classes { result ≡ counted width.bits filters.now }
    ensures cares { cares.new ≡ laid care_at (listed width.bits filters.now) cares.old }
    ensures values { values.new ≡ laid value_at (listed width.bits filters.now) values.old }
    ensures sizes { sizes.new ≡ laid size_of (listed width.bits filters.now) sizes.old }
{
    // None of the three is shorter.
    let Some(cares) = cares.first_chunk_mut::<1024>() else {
        unreachable!();
    };
    let Some(values) = values.first_chunk_mut::<1024>() else {
        unreachable!();
    };
    let Some(sizes) = sizes.first_chunk_mut::<1024>() else {
        unreachable!();
    };
    let mut list = Listing {
        cares,
        values,
        sizes,
        len: 0,
    };
    let classes = gather(&mut list, filters, width);
    list.clear(classes.unwrap_or(0));
    classes
}
