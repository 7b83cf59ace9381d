// The network file: Read, the working arrays, and the lookup in a node's table.
#![tactic(auto)]

mod records;
mod refusals;
mod steps;

ghost use Rattle.std.specs.Prelude.{◌≡◌, ◌+◌, ◌≤◌, Ok};
ghost use Rattle.reading.specs.Network.{next_by, act};
ghost use Rattle.reading.specs.Code.{leads_in};
ghost use Rattle.reading.specs.File.{read_of};
ghost use Rattle.reading.specs.Arrays.{filled, patterns_of, actions_of, marks_of, rules_in, rules_left, found_at};
ghost use Rattle.std.specs.Iterator.{YieldsFirst, item_count};

use pattern::{Pattern, Width};
use records::{Record, Records};
pub use refusals::{Reason, Refusal};
use steps::{State, Step};

// What a rule does with a header that matches it.
#[derive(Clone, Copy)]
pub enum Action {
    Forward(u8),
    Drop,
    Deliver,
}

impl Action {
    // The next node after it; none at an end.
    pub fn next(self) -> Option<u8>
        ensures { result ≡ next_by self }
    {
        match self {
            Action::Forward(next) => Some(next),
            Action::Drop | Action::Deliver => None,
        }
    }

    // Whether it leads to a node that is there.
    fn leads(self, nodes: u8) -> bool
        ensures { result ≡ leads_in nodes self }
    {
        self.next().is_none_or(|next| next < nodes)
    }
}

// A rule of a node's table.
#[derive(Clone, Copy)]
pub struct Rule {
    pub pattern: Pattern,
    pub action: Action,
}

// What Read says of a file that it accepts.
#[derive(Clone, Copy, PartialEq, Eq)]
pub struct Figures {
    pub width: u8,
    pub nodes: u8,
    pub rules: usize,
}

// Where a node's table begins: the number of its first rule in the file, and the place of its table record.
#[derive(Clone, Copy, PartialEq, Eq)]
pub struct Mark {
    pub rule: usize,
    pub place: usize,
}

// The working arrays: a rule's filter and action at its number in the file, and a mark at each node's number. After the last
// node stands one more mark, with the rule count and the place of 7F.
#[derive(Drop)]
pub struct Arrays {
    pub patterns: [Pattern; 256],
    pub actions: [Action; 256],
    pub marks: [Mark; 65],
}

impl Arrays {
    // Before anything is read into them.
    pub const EMPTY: Arrays = Arrays {
        patterns: [Pattern::ALL_FREE; 256],
        actions: [Action::Drop; 256],
        marks: [Mark { rule: 0, place: 0 }; 65],
    };
}

// Read: the whole file, by the one loop that reads files. The arrays end with the call.
pub fn read(file: &[u8]) -> Result<Figures, Refusal>
    ensures { result ≡ read_of file.now }
{
    let mut arrays = Arrays::EMPTY;
    fill(file, &mut arrays)
}

// Reads the file into the working arrays. What the file does not reach stays as it was.
pub fn fill(file: &[u8], arrays: &mut Arrays) -> Result<Figures, Refusal>
    ensures answer { result ≡ read_of file.now }
    ensures patterns { arrays.new.patterns ≡ filled (patterns_of file.now) arrays.old.patterns }
    ensures actions { arrays.new.actions ≡ filled (actions_of file.now) arrays.old.actions }
    ensures marks { arrays.new.marks ≡ filled (marks_of file.now) arrays.old.marks }
{
    let mut st = State::START;
    loop {
        match st.step_at(file)? {
            Step::Opened(next) => {
                st = next;
            }
            Step::Begun(next) => {
                arrays.marks[usize::from(st.tables)] = st.mark();
                st = next;
            }
            Step::Ruled(next, rule) => {
                arrays.patterns[st.rules] = rule.pattern;
                arrays.actions[st.rules] = rule.action;
                st = next;
            }
            Step::Ended => {
                arrays.marks[usize::from(st.tables)] = st.mark();
                return Ok(st.figures());
            }
        }
    }
}

// The rule record at the reader's place in a table's part, if one stands there and its filter is good, with the place after it.
fn found_at<'a>(records: Records<'a>, width: Width) -> Option<(Rule, usize)>
    ensures { result ≡ found_at width.bits records.entry.file.now records.entry.at }
{
    let Record::Rule(written) = records.standing().ok()? else {
        return None;
    };
    let pattern = written.filter(width).ok()?;
    let action = written.action;
    Some((Rule { pattern, action }, records.at + (1 + written.body)))
}

// The rules of a table's part, up to the first thing that is no good rule record.
#[derive(Drop)]
struct Rules<'a> {
    records: Records<'a>,
    width: Width,
}

impl<'a> Iterator for Rules<'a> {
    type Item = Rule;

    ghost next_gives = { YieldsFirst rules_left };

    ghost remaining = { item_count rules_left };

    fn next(&mut self) -> Option<Rule> {
        let (rule, next) = found_at(self.records, self.width)?;
        self.records = self.records.moved(next);
        Some(rule)
    }
}

// What a node's table does with a query, from the table's part of the file: the first rule that contains the query acts.
pub fn lookup(part: &[u8], width: Width, query: Pattern) -> Action
    ensures { result ≡ act (rules_in width.bits part.now) query }
{
    let records = Records::open(part);
    let rules = Rules { records, width };
    for rule in rules {
        if query.within(rule.pattern) {
            return rule.action;
        }
    }
    Action::Drop
}
