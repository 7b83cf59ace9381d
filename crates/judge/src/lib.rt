// Judge: rows of next nodes, the least header that goes round, and its cycle.
#![tactic(auto)]

mod deciding;
mod rows;

ghost use Rattle.std.specs.Prelude.{◌≡◌};
ghost use Rattle.reading.specs.File.{parse};
ghost use Rattle.judge.specs.Judging.{lent_of, on_parsed, judge_of};

use least::Patterns;
use pattern::{Pattern, Width};
use reading::{Action, Arrays, Figures, Mark, Reason, Refusal};
use rows::Standing;

// The verdict: no header goes round, or the least that does.
#[derive(Clone, Copy, PartialEq, Eq)]
pub enum Verdict {
    Free,
    Loop(u32),
}

// What Judge says of a file that is no refusal: its figures, the number of classes, and the verdict.
#[derive(Clone, Copy, PartialEq, Eq)]
pub struct Judged {
    pub figures: Figures,
    pub classes: usize,
    pub verdict: Verdict,
}

// The judgement where the lent lists are long enough: of their front.
#[tactic(auto, using(crate::proofs::FromFile::narrow, crate::proofs::FromFile::rules_fit))]
fn judge_lent(
    file: &[u8],
    cares: &mut [u32; 1024],
    values: &mut [u32; 1024],
    sizes: &mut [u64; 1024],
    cycle: &mut [u8; 64],
) -> Result<Judged, Refusal>
    ensures answer { result ≡ (on_parsed (parse file.now) (lent_of cares.old values.old sizes.old cycle.old)).answer }
    ensures cares { cares.new ≡ (on_parsed (parse file.now) (lent_of cares.old values.old sizes.old cycle.old)).lent.cares }
    ensures values { values.new ≡ (on_parsed (parse file.now) (lent_of cares.old values.old sizes.old cycle.old)).lent.values }
    ensures sizes { sizes.new ≡ (on_parsed (parse file.now) (lent_of cares.old values.old sizes.old cycle.old)).lent.sizes }
    ensures cycle { cycle.new ≡ (on_parsed (parse file.now) (lent_of cares.old values.old sizes.old cycle.old)).lent.cycle }
{
    // Written out: the constant of it would stand on the stack twice.
    let mut arrays = Arrays {
        patterns: [Pattern::ALL_FREE; 256],
        actions: [Action::Drop; 256],
        marks: [Mark { rule: 0, place: 0 }; 65],
    };
    let figures = reading::fill(file, &mut arrays)?;
    let width = Width {
        bits: figures.width,
    };
    let filters = &arrays.patterns[..figures.rules];
    let Some(classes) = classes::build(filters, width, cares, values, sizes) else {
        cycle.fill(255);
        return Err(Reason::TooManyClasses.at(0));
    };
    let listed = Patterns {
        cares: &cares[..classes],
        values: &values[..classes],
    };
    let standing = Standing {
        file,
        marks: &arrays.marks,
        nodes: figures.nodes,
        width,
    };
    let verdict = standing.decide(listed, cycle);
    Ok(Judged {
        figures,
        classes,
        verdict,
    })
}

// Judge: the class list in the three lent lists, the verdict, and the cycle in the lent bytes.
pub fn judge(
    file: &[u8],
    cares: &mut [u32],
    values: &mut [u32],
    sizes: &mut [u64],
    cycle: &mut [u8],
) -> Result<Judged, Refusal>
    ensures answer { result ≡ (judge_of file.now (lent_of cares.old values.old sizes.old cycle.old)).answer }
    ensures cares { cares.new ≡ (judge_of file.now (lent_of cares.old values.old sizes.old cycle.old)).lent.cares }
    ensures values { values.new ≡ (judge_of file.now (lent_of cares.old values.old sizes.old cycle.old)).lent.values }
    ensures sizes { sizes.new ≡ (judge_of file.now (lent_of cares.old values.old sizes.old cycle.old)).lent.sizes }
    ensures cycle { cycle.new ≡ (judge_of file.now (lent_of cares.old values.old sizes.old cycle.old)).lent.cycle }
{
    let short = Reason::ShortLists.at(0);
    let cares = cares.first_chunk_mut::<1024>().ok_or(short)?;
    let values = values.first_chunk_mut::<1024>().ok_or(short)?;
    let sizes = sizes.first_chunk_mut::<1024>().ok_or(short)?;
    let cycle = cycle.first_chunk_mut::<64>().ok_or(short)?;
    judge_lent(file, cares, values, sizes, cycle)
}
