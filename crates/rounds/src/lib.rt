// Going round: cycles in a row of next nodes. A row has the next node at each node's place, or none at an end; with n nodes, a
// number of n or more is an end too.
#![tactic(auto)]

ghost use Rattle.std.specs.Prelude.{◌≡◌, ◌≤◌, ◌<◌, ◌++◌, true, length, drop};
ghost use Rattle.rounds.specs.Rows.{next_of};
ghost use Rattle.rounds.specs.Rounds.{returns_to, lowest, cycle_of, cycle_for, cycle_bytes};

// A network for one header: the next of each node.
#[derive(Drop)]
pub struct Row {
    pub next: [Option<u8>; 64],
    pub nodes: usize,
    pub ghost few: { nodes ≤ 64 },
}

impl Row {
    // Whether following the row from v enters v again within as many hops as there are nodes.
    fn returns_to(&self, v: usize) -> bool
        requires { v < self.now.nodes }
        ensures { result ≡ returns_to (next_of self.now.next self.now.nodes) self.now.nodes v }
    {
        let mut cur = v;
        for _ in 0..self.nodes {
            let Some(next) = self.next[cur] else {
                return false;
            };
            cur = usize::from(next);
            if cur == v {
                return true;
            }
            if self.nodes <= cur {
                return false;
            }
        }
        false
    }

    // The lowest node that lies on a cycle.
    pub fn lowest_on_cycle(&self) -> Option<usize>
        ensures { result ≡ lowest (next_of self.now.next self.now.nodes) self.now.nodes }
    {
        (0..self.nodes).find(|v| self.returns_to(*v))
    }

    // Writes v's cycle to the front of out.
    fn write_cycle(&self, v: usize, out: &mut [u8; 64])
        requires { (v < self.now.nodes) × (returns_to (next_of self.now.next self.now.nodes) self.now.nodes v ≡ true) }
        ensures { out.new ≡ cycle_of (next_of self.now.next self.now.nodes) self.now.nodes v ++ drop (length (cycle_of (next_of self.now.next self.now.nodes) self.now.nodes v)) out.old }
    {
        let mut cur = v;
        for i in 0..self.nodes {
            out[i] = cur as u8;
            cur = usize::from(self.next[cur].unwrap());
            if cur == v {
                return;
            }
        }
    }

    // The lowest node on a cycle, and its cycle in out, with 255 after the last node; 255 throughout where nothing goes round.
    pub fn write_lowest(&self, out: &mut [u8; 64]) -> Option<usize>
        ensures answer { result ≡ lowest (next_of self.now.next self.now.nodes) self.now.nodes }
        ensures written { out.new ≡ cycle_bytes (cycle_for (next_of self.now.next self.now.nodes) self.now.nodes result) out.old }
    {
        out.fill(255);
        let low = self.lowest_on_cycle()?;
        self.write_cycle(low, out);
        Some(low)
    }
}
