// An entry's figure put in among those of a list, and one taken out.
ghost use Rattle.std.specs.Prelude.{◌≡◌, ◌≤◌, ◌<◌, length};
ghost use Rattle.classes.specs.Steps.{inserted, removed};

// `x` at place `i` of the first `n`; those from there on go one place up.
#[tactic(auto, using(crate::proofs::Shifts::put_is))]
pub fn put_in<T: Copy>(list: &mut [T], i: usize, n: usize, x: T)
    requires few { n < length list.old }
    requires inside { i ≤ n }
    ensures { list.new ≡ inserted i n x list.old }
{
    list.copy_within(i..n, i + 1);
    list[i] = x;
}

// Place `i` of the first `n` goes; those after it go one place down.
#[tactic(auto, unfolding(crate::specs::Steps::removed))]
pub fn take_out<T: Copy>(list: &mut [T], i: usize, n: usize)
    requires few { n ≤ length list.old }
    requires inside { i < n }
    ensures { list.new ≡ removed i n list.old }
{
    list.copy_within(i + 1..n, i);
}
