// An accepted file as it stands, and the row of a query in it: for each node the next one, by the lookup in the node's table.
ghost use Rattle.std.specs.Prelude.{◌≡◌};
ghost use Rattle.rounds.specs.Rows.{next_of};
ghost use Rattle.judge.specs.Forwarding.{nodes_of, hop};
ghost use Rattle.judge.specs.Verdicts.{loops};
ghost use Rattle.judge.specs.Steps.{network_of, Stands};

use pattern::{Pattern, Width};
use reading::Mark;
use rounds::Row;

// An accepted file, and where its nodes' tables stand in it.
#[derive(Clone, Copy)]
pub struct Standing<'a> {
    pub file: &'a [u8],
    pub marks: &'a [Mark; 65],
    pub nodes: u8,
    pub width: Width,
    pub ghost stands: { Stands file.now marks.now nodes width.bits },
}

impl Standing<'_> {
    // The row of a query.
    pub fn row(self, query: Pattern) -> Row
        ensures nodes { result.nodes ≡ nodes_of (network_of self.entry.file.now) }
        ensures next { next_of result.next result.nodes ≡ hop (network_of self.entry.file.now) query }
    {
        let mut next = [None; 64];
        let nodes = usize::from(self.nodes);
        for v in 0..nodes {
            let table = &self.file[self.marks[v].place + 2..self.marks[v + 1].place];
            next[v] = reading::lookup(table, self.width, query).next();
        }
        Row { next, nodes }
    }

    // Whether the headers of a query go round.
    #[tactic(auto, unfolding(crate::specs::Verdicts::loops))]
    pub fn goes_round(self, query: Pattern) -> bool
        ensures { result ≡ loops (network_of self.entry.file.now) query }
    {
        self.row(query).lowest_on_cycle().is_some()
    }
}
