// The three calls of the crate desk, exported for programs in C and other languages: target/staticlib/libdesk.a is made of this
// crate. Each export calls the function of its name there, and has its contract.
#![tactic(auto)]

ghost use Rattle.std.specs.Prelude.{◌≡◌};
ghost use Rattle.reading.specs.File.{read_of};
ghost use Rattle.judge.specs.Judging.{lent_of, judge_of};
ghost use Rattle.walk.specs.Walking.{walk_of};
ghost use Rattle.desk.specs.Sheets.{read_sheet, judge_sheet, walk_sheet, unless_short, returned, laid};

// Read: width, node count and rule count.
#[unsafe(no_mangle)]
pub extern "C" fn lanecompass_read(file: &[u8], out: &mut [u64]) -> u8
    ensures number { result ≡ returned (read_sheet (read_of file.now)) out.old }
    ensures out { out.new ≡ laid (read_sheet (read_of file.now)) out.old }
{
    desk::lanecompass_read(file, out)
}

// Judge: the same, the class count and the verdict; the class list and the cycle in the lent lists.
#[unsafe(no_mangle)]
pub extern "C" fn lanecompass_judge(
    file: &[u8],
    cares: &mut [u32],
    values: &mut [u32],
    sizes: &mut [u64],
    cycle: &mut [u8],
    out: &mut [u64],
) -> u8
    ensures number { result ≡ returned (judge_sheet (judge_of file.now (lent_of cares.old values.old sizes.old cycle.old)).answer) out.old }
    ensures out { out.new ≡ laid (judge_sheet (judge_of file.now (lent_of cares.old values.old sizes.old cycle.old)).answer) out.old }
    ensures cares { cares.new ≡ unless_short out.old cares.old (judge_of file.now (lent_of cares.old values.old sizes.old cycle.old)).lent.cares }
    ensures values { values.new ≡ unless_short out.old values.old (judge_of file.now (lent_of cares.old values.old sizes.old cycle.old)).lent.values }
    ensures sizes { sizes.new ≡ unless_short out.old sizes.old (judge_of file.now (lent_of cares.old values.old sizes.old cycle.old)).lent.sizes }
    ensures cycle { cycle.new ≡ unless_short out.old cycle.old (judge_of file.now (lent_of cares.old values.old sizes.old cycle.old)).lent.cycle }
{
    desk::lanecompass_judge(file, cares, values, sizes, cycle, out)
}

// Walk: the outcome, the node and the hops.
#[unsafe(no_mangle)]
pub extern "C" fn lanecompass_walk(file: &[u8], header: u64, start: u8, out: &mut [u64]) -> u8
    ensures number { result ≡ returned (walk_sheet (walk_of file.now header start)) out.old }
    ensures out { out.new ≡ laid (walk_sheet (walk_of file.now header start)) out.old }
{
    desk::lanecompass_walk(file, header, start, out)
}
