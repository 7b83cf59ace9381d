// The calls of Lanecompass for programs in C and other languages: each takes numbers and slices, returns a number, and writes
// six figures to a lent list. include/lanecompass.h is the same for a reader of C. The crate desk_c exports them.
#![tactic(auto)]

ghost use Rattle.std.specs.Prelude.{◌≡◌};
ghost use Rattle.std.specs.Result.{MatchResult};
ghost use Rattle.reading.specs.File.{read_of};
ghost use Rattle.judge.specs.Judging.{lent_of, judge_of};
ghost use Rattle.walk.specs.Walking.{walk_of};
ghost use Rattle.desk.specs.Sheets.{sheet, refusal_sheet, figures_sheet, judged_sheet, outcome_sheet, read_sheet, judge_sheet, walk_sheet, unless_short, returned, laid};

use judge::{Judged, Verdict};
use reading::{Figures, Refusal};
use walk::Outcome;

// What a call returns where the list lent for the figures is too short.
const SHORT: u8 = 255;

// An answer in numbers: the number that a call returns, and the six figures that it writes.
#[derive(Clone, Copy)]
struct Sheet {
    number: u8,
    figures: [u64; 6],
}

// A refusal: its number and its place.
impl From<Refusal> for Sheet {
    ghost from_gives = { λ refusal s. s ≡ refusal_sheet refusal };

    fn from(refusal: Refusal) -> Sheet {
        Sheet {
            number: u8::from(refusal.reason),
            figures: [refusal.place as u64, 0, 0, 0, 0, 0],
        }
    }
}

// What Read found: width, node count and rule count.
impl From<Figures> for Sheet {
    ghost from_gives = { λ found s. s ≡ figures_sheet found };

    fn from(found: Figures) -> Sheet {
        Sheet {
            number: 0,
            figures: [
                u64::from(found.width),
                u64::from(found.nodes),
                found.rules as u64,
                0,
                0,
                0,
            ],
        }
    }
}

// What Judge found: the same, the class count and the verdict (0 for free, 1 for loop), then the header, 0 for free.
impl From<Judged> for Sheet {
    ghost from_gives = { λ found s. s ≡ judged_sheet found };

    fn from(found: Judged) -> Sheet {
        let (verdict, header) = match found.verdict {
            Verdict::Free => (0, 0),
            Verdict::Loop(header) => (1, u64::from(header)),
        };
        Sheet {
            number: 0,
            figures: [
                u64::from(found.figures.width),
                u64::from(found.figures.nodes),
                found.figures.rules as u64,
                found.classes as u64,
                verdict,
                header,
            ],
        }
    }
}

// What Walk found: the outcome (0 for delivered, 1 for dropped, 2 for circling), the node and the hops.
impl From<Outcome> for Sheet {
    ghost from_gives = { λ found s. s ≡ outcome_sheet found };

    fn from(found: Outcome) -> Sheet {
        let (outcome, node, hops) = match found {
            Outcome::Delivered { node, hops } => (0, node, hops),
            Outcome::Dropped { node, hops } => (1, node, hops),
            Outcome::Circling { node, hops } => (2, node, hops),
        };
        Sheet {
            number: 0,
            figures: [outcome, u64::from(node), u64::from(hops), 0, 0, 0],
        }
    }
}

// Writes the figures of an answer, and hands its number on.
fn lay<A: Into<Sheet>>(answer: Result<A, Refusal>, out: &mut [u64; 6]) -> u8
    ensures { MatchResult answer (λ found. A.converts found (sheet result out.new)) (λ refusal. sheet result out.new ≡ refusal_sheet refusal) }
{
    let Sheet { number, figures } = match answer {
        Ok(found) => found.into(),
        Err(refusal) => refusal.into(),
    };
    *out = figures;
    number
}

// Read: width, node count and rule count.
#[tactic(auto, unfolding(crate::specs::Sheets::unless_short))]
pub fn lanecompass_read(file: &[u8], out: &mut [u64]) -> u8
    ensures number { result ≡ returned (read_sheet (read_of file.now)) out.old }
    ensures out { out.new ≡ laid (read_sheet (read_of file.now)) out.old }
{
    let Some(out) = out.first_chunk_mut::<6>() else {
        return SHORT;
    };
    lay(reading::read(file), out)
}

// Judge: the same, the class count and the verdict; the class list and the cycle in the lent lists.
#[tactic(auto, unfolding(crate::specs::Sheets::unless_short))]
pub fn lanecompass_judge(
    file: &[u8],
    cares: &mut [u32],
    values: &mut [u32],
    sizes: &mut [u64],
    cycle: &mut [u8],
    out: &mut [u64],
) -> u8
    ensures number { result ≡ returned (judge_sheet (judge_of file.now (lent_of cares.old values.old sizes.old cycle.old)).answer) out.old }
    ensures out { out.new ≡ laid (judge_sheet (judge_of file.now (lent_of cares.old values.old sizes.old cycle.old)).answer) out.old }
    ensures cares { cares.new ≡ unless_short out.old cares.old (judge_of file.now (lent_of cares.old values.old sizes.old cycle.old)).lent.cares }
    ensures values { values.new ≡ unless_short out.old values.old (judge_of file.now (lent_of cares.old values.old sizes.old cycle.old)).lent.values }
    ensures sizes { sizes.new ≡ unless_short out.old sizes.old (judge_of file.now (lent_of cares.old values.old sizes.old cycle.old)).lent.sizes }
    ensures cycle { cycle.new ≡ unless_short out.old cycle.old (judge_of file.now (lent_of cares.old values.old sizes.old cycle.old)).lent.cycle }
{
    let Some(out) = out.first_chunk_mut::<6>() else {
        return SHORT;
    };
    lay(judge::judge(file, cares, values, sizes, cycle), out)
}

// Walk: the outcome, the node and the hops.
#[tactic(auto, unfolding(crate::specs::Sheets::unless_short))]
pub fn lanecompass_walk(file: &[u8], header: u64, start: u8, out: &mut [u64]) -> u8
    ensures number { result ≡ returned (walk_sheet (walk_of file.now header start)) out.old }
    ensures out { out.new ≡ laid (walk_sheet (walk_of file.now header start)) out.old }
{
    let Some(out) = out.first_chunk_mut::<6>() else {
        return SHORT;
    };
    lay(walk::walk(file, header, start), out)
}
