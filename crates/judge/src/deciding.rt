// The verdict from the class list: the classes that go round, the least header among them, and its cycle.
ghost use Rattle.std.specs.Prelude.{◌≡◌, map, ◌≤◌, length};
ghost use Rattle.least.specs.Steps.{patterns_of};
ghost use Rattle.rounds.specs.Rounds.{cycle_bytes};
ghost use Rattle.judge.specs.declared.Verdict.TheVariants.{Loop};
ghost use Rattle.judge.specs.Verdicts.{loops, verdict_of, cycle_in};
ghost use Rattle.judge.specs.Steps.{network_of, Listed};

use crate::Verdict;
use crate::rows::Standing;
use least::{MarkedClasses, Patterns};
use pattern::Pattern;

impl Standing<'_> {
    // Marks the classes that go round.
    fn mark_all(self, listed: Patterns, marks: &mut [bool])
        requires { length marks.old ≡ length listed.cares.now }
        ensures { marks.new ≡ map (loops (network_of self.entry.file.now)) (patterns_of listed.entry) }
    {
        for (i, mark) in marks.iter_mut().enumerate() {
            *mark = self.goes_round(listed.at(i));
        }
    }

    // Writes the cycle of a header.
    #[tactic(auto, unfolding(crate::specs::Verdicts::cycle_in))]
    fn write_loop(self, header: u32, cycle: &mut [u8; 64])
        ensures { cycle.new ≡ cycle_bytes (cycle_in (network_of self.entry.file.now) (Loop header)) cycle.old }
    {
        let query = Pattern::of_header(self.width, header);
        self.row(query).write_lowest(cycle);
    }

    // The verdict from the class list, and the cycle in the lent bytes.
    pub fn decide(self, listed: Patterns, cycle: &mut [u8; 64]) -> Verdict
        requires few { length listed.cares.now ≤ 512 }
        requires listed { Listed (network_of self.file.now) listed }
        ensures verdict { result ≡ verdict_of (network_of self.entry.file.now) }
        ensures cycle { cycle.new ≡ cycle_bytes (cycle_in (network_of self.entry.file.now) (verdict_of (network_of self.entry.file.now))) cycle.old }
    {
        let mut marks = [false; 512];
        let mut counts = [0u64; 512];
        let marks = &mut marks[..listed.len()];
        self.mark_all(listed, marks);
        if !least::any_marked(marks) {
            cycle.fill(255);
            return Verdict::Free;
        }
        let classes = MarkedClasses {
            width: self.width,
            listed,
            marks,
        };
        let header = classes.least(&mut counts);
        self.write_loop(header, cycle);
        Verdict::Loop(header)
    }
}
