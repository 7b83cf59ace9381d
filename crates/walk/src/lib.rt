// Walk: one header from one node through the working arrays.
#![tactic(auto)]

ghost use Rattle.std.specs.Prelude.{◌≡◌, ◌<◌};
ghost use Rattle.walk.specs.Walking.{walk_through, walk_by, walk_of};
ghost use Rattle.walk.specs.Steps.{acts_in, TablesIn};

use pattern::Width;
use reading::{Action, Arrays, Reason, Refusal};

// How a walk ends: at which node, after how many hops.
#[derive(Clone, Copy, PartialEq, Eq)]
pub enum Outcome {
    Delivered { node: u8, hops: u8 },
    Dropped { node: u8, hops: u8 },
    // The node is the first that is entered again.
    Circling { node: u8, hops: u8 },
}

// The tables of a network's nodes, as they stand in the working arrays.
#[derive(Clone, Copy)]
struct Tables<'a> {
    arrays: &'a Arrays,
    nodes: u8,
    ghost stand: { TablesIn arrays.now nodes },
}

impl Tables<'_> {
    // Follows the header from the start: over the hops, and inside over the rules of the node's table.
    fn follow(self, header: u32, start: u8) -> Result<Outcome, Refusal>
        requires { start < self.nodes }
        ensures { result ≡ walk_through (acts_in self.entry.arrays.now header) self.entry.nodes start }
    {
        // The nodes entered.
        let mut seen = [false; 64];
        seen[usize::from(start)] = true;
        let mut node = start;
        let mut hops: u8 = 0;
        let arrays = self.arrays;
        let outcome = 'walk: loop {
            if hops == self.nodes {
                break 'walk Err(Reason::NoEnd.at(0));
            }
            let v = usize::from(node);
            for i in arrays.marks[v].rule..arrays.marks[v + 1].rule {
                if arrays.patterns[i].hits(header) {
                    match arrays.actions[i] {
                        Action::Deliver => break 'walk Ok(Outcome::Delivered { node, hops }),
                        Action::Drop => break 'walk Ok(Outcome::Dropped { node, hops }),
                        Action::Forward(next) => {
                            hops += 1;
                            let w = usize::from(next);
                            if seen[w] {
                                break 'walk Ok(Outcome::Circling { node: next, hops });
                            }
                            seen[w] = true;
                            node = next;
                            continue 'walk;
                        }
                    }
                }
            }
            break 'walk Ok(Outcome::Dropped { node, hops });
        };
        outcome
    }

    // The checks of the header and of the start node, then the walk.
    #[tactic(auto, using(crate::proofs::WalkSteps::by_14, crate::proofs::WalkSteps::by_15, crate::proofs::WalkSteps::by_walk))]
    fn walk(self, width: Width, header: u64, start: u8) -> Result<Outcome, Refusal>
        ensures { result ≡ walk_by (acts_in self.entry.arrays.now header) width.bits self.entry.nodes header start }
    {
        if width.headers() <= header {
            return Err(Reason::WideHeader.at(0));
        }
        if self.nodes <= start {
            return Err(Reason::NoSuchStart.at(0));
        }
        self.follow(header as u32, start)
    }
}

// Walk: follows a header from a start node.
#[tactic(auto, using(crate::proofs::WalkTables::walk_refused))]
pub fn walk(file: &[u8], header: u64, start: u8) -> Result<Outcome, Refusal>
    ensures { result ≡ walk_of file.now header start }
{
    let mut arrays = Arrays::EMPTY;
    let figures = reading::fill(file, &mut arrays)?;
    let tables = Tables {
        arrays: &arrays,
        nodes: figures.nodes,
    };
    let width = Width {
        bits: figures.width,
    };
    tables.walk(width, header, start)
}
