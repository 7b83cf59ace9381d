// The lines one by one: a refusal, the counts, the class count, a class, the verdict. Each `put_` function puts its line in the
// place of what the lent one held.
#![tactic(auto, using(crate::proofs::Numbers::written_decimal))]

ghost use Rattle.std.specs.Prelude.{◌≡◌, ◌≤◌, length};
ghost use Rattle.judge.specs.declared.Verdict.TheVariants.{Loop};
ghost use Rattle.printing.specs.Lines.{refused_line, counts_line, classes_line, class_line, verdict_line};

use crate::Line;
use crate::pieces::{push_letters, push_nodes, push_number};
use judge::Verdict;
use pattern::{Pattern, Width};
use reading::Figures;

// The one line of a refusal, with any number.
pub fn put_refused(line: &mut Line, number: u8, place: usize)
    ensures { line.new.bytes ≡ refused_line number place }
{
    line.clear();
    line.push_str("refused ");
    push_number(line, number);
    line.push_str(" at ");
    push_number(line, place);
    line.push_str("\n");
}

// The first line: the three counts.
pub(crate) fn put_counts(line: &mut Line, figures: Figures)
    ensures { line.new.bytes ≡ counts_line figures.width figures.nodes figures.rules }
{
    line.clear();
    line.push_str("width ");
    push_number(line, figures.width);
    line.push_str(" nodes ");
    push_number(line, figures.nodes);
    line.push_str(" rules ");
    push_number(line, figures.rules);
    line.push_str("\n");
}

// The second line: how many classes there are.
pub(crate) fn put_class_count(line: &mut Line, classes: usize)
    ensures { line.new.bytes ≡ classes_line classes }
{
    line.clear();
    line.push_str("classes ");
    push_number(line, classes);
    line.push_str("\n");
}

// A class's line: its pattern and its size.
pub(crate) fn put_class(class: &mut Line, width: Width, pattern: Pattern, size: u64)
    ensures { class.new.bytes ≡ class_line width.bits pattern size }
{
    class.clear();
    push_letters(class, width, pattern);
    class.push_str(" ");
    push_number(class, size);
    class.push_str("\n");
}

// The last line: the verdict, and the nodes of its cycle.
pub(crate) fn put_verdict(line: &mut Line, width: Width, verdict: Verdict, cycle: &[u8])
    requires { length cycle.now ≤ 64 }
    ensures { line.new.bytes ≡ verdict_line width.bits verdict cycle.now }
{
    line.clear();
    match verdict {
        Verdict::Free => line.push_str("free"),
        Verdict::Loop(header) => {
            line.push_str("loop ");
            push_letters(line, width, Pattern::of_header(width, header));
            line.push_str(" cycle");
            push_nodes(line, cycle);
        }
    }
    line.push_str("\n");
}
