// One step of the reading: the record at the state's place, checked against what was read before it.
ghost use Rattle.std.specs.Prelude.{◌≡◌, ◌+◌, ◌^◌, ◌≤◌, ◌<◌, length};
ghost use Rattle.reading.specs.Refusals.{out_of_place, one_too_many};
ghost use Rattle.reading.specs.File.{step_of};
ghost use Rattle.reading.specs.Arrays.{mark_of, figures_of};
ghost use Rattle.reading.specs.Code.{short_refusal, network_step, table_step, ruled_step, rule_step, end_step};

use crate::records::{Case, Doing, Record, Records, Unread, Written};
use crate::refusals::{Reason, Refusal};
use crate::{Figures, Mark, Rule};
use pattern::{Pattern, Width};

// The most that the scope allows: header width, nodes, and rules over all tables.
const WIDEST: u8 = 32;

const MOST_NODES: u8 = 64;

const MOST_RULES: usize = 256;

// How far the reading is. Before the network record the width is 0.
#[derive(Clone, Copy)]
pub struct State {
    pub at: usize,
    pub width: u8,
    pub nodes: u8,
    pub tables: u8,
    pub rules: usize,
}

impl State {
    // Before the first record.
    pub const START: State = State {
        at: 0,
        width: 0,
        nodes: 0,
        tables: 0,
        rules: 0,
    };

    // Where a table begins whose record stands here.
    pub fn mark(self) -> Mark
        ensures { result ≡ mark_of self }
    {
        Mark {
            rule: self.rules,
            place: self.at,
        }
    }

    // The figures of a file that ends here.
    pub fn figures(self) -> Figures
        ensures { result ≡ figures_of self }
    {
        Figures {
            width: self.width,
            nodes: self.nodes,
            rules: self.rules,
        }
    }

    // Whether a record of a known case is out of place.
    fn misplaced(self, case: Case) -> bool
        ensures { result ≡ out_of_place case self }
    {
        let first = self.width == 0;
        match case {
            Case::Network => !first,
            Case::Table => first || self.nodes <= self.tables,
            Case::Rule(_, _) => first || self.tables == 0,
            Case::End => first || self.tables < self.nodes,
        }
    }

    // Whether a record would be a 257th rule.
    fn one_too_many(self, case: Case) -> bool
        ensures { result ≡ one_too_many case self }
    {
        matches!(case, Case::Rule(_, _)) && MOST_RULES <= self.rules
    }

    // A record whose body the file's end cuts short.
    fn short(self, case: Case) -> Refusal
        ensures { result ≡ short_refusal self case }
    {
        if self.misplaced(case) {
            Reason::OutOfPlace.at(self.at)
        } else if self.one_too_many(case) {
            Reason::TooManyRules.at(self.at)
        } else {
            Reason::CutShort.at(self.at)
        }
    }

    // 01: the width and the node count.
    #[tactic(auto, unfolding(crate::specs::Code::network_step))]
    fn network(self, width: u8, nodes: u8) -> Result<Step, Refusal>
        requires { self.at + 3 < 2 ^ 64 }
        ensures { result ≡ network_step self width nodes }
    {
        if self.misplaced(Case::Network) {
            return Err(Reason::OutOfPlace.at(self.at));
        }
        if !(1..=WIDEST).contains(&width) {
            return Err(Reason::BadWidth.at(0));
        }
        if !(1..=MOST_NODES).contains(&nodes) {
            return Err(Reason::BadNodeCount.at(0));
        }
        Ok(Step::Opened(State {
            at: self.at + 3,
            width,
            nodes,
            tables: 0,
            rules: 0,
        }))
    }

    // 02: the next node's table begins.
    #[tactic(auto, unfolding(crate::specs::Code::table_step))]
    fn table(self, node: u8) -> Result<Step, Refusal>
        requires { self.at + 2 < 2 ^ 64 }
        ensures { result ≡ table_step self node }
    {
        if self.misplaced(Case::Table) {
            return Err(Reason::OutOfPlace.at(self.at));
        }
        if node != self.tables {
            return Err(Reason::TableNumber.at(self.at));
        }
        Ok(Step::Begun(State {
            at: self.at + 2,
            tables: self.tables + 1,
            ..self
        }))
    }

    // A rule whose filter is good.
    #[tactic(auto, unfolding(crate::specs::Code::ruled_step))]
    fn ruled(self, written: Written, pattern: Pattern) -> Result<Step, Refusal>
        requires { (self.at + (1 + written.body) < 2 ^ 64) × (self.rules < 256) }
        ensures { result ≡ ruled_step self written pattern }
    {
        let action = written.action;
        if action.leads(self.nodes) {
            return Ok(Step::Ruled(
                State {
                    at: self.at + (1 + written.body),
                    rules: self.rules + 1,
                    ..self
                },
                Rule { pattern, action },
            ));
        }
        Err(Reason::NoSuchNext.at(self.at))
    }

    // 03 to 05 and 13 to 15: a rule of the table.
    #[tactic(auto, unfolding(crate::specs::Code::rule_step, crate::specs::Code::filter_step))]
    fn rule(self, written: Written) -> Result<Step, Refusal>
        requires { (self.at + (1 + written.body) < 2 ^ 64) × (self.width ≤ 32) }
        ensures { result ≡ rule_step self written }
    {
        let notation = written.notation;
        if self.misplaced(Case::Rule(notation, Doing::Drops)) {
            return Err(Reason::OutOfPlace.at(self.at));
        }
        if MOST_RULES <= self.rules {
            return Err(Reason::TooManyRules.at(self.at));
        }
        let width = Width { bits: self.width };
        let pattern = written
            .filter(width)
            .map_err(|flaw| Reason::from(flaw).at(self.at))?;
        self.ruled(written, pattern)
    }

    // 7F: the end, and nothing more.
    #[tactic(auto, unfolding(crate::specs::Code::end_step))]
    fn end(self, length: usize) -> Result<Step, Refusal>
        requires { self.at < length }
        ensures { result ≡ end_step self length }
    {
        if self.misplaced(Case::End) {
            return Err(Reason::OutOfPlace.at(self.at));
        }
        if self.at + 1 < length {
            return Err(Reason::AfterTheEnd.at(self.at + 1));
        }
        Ok(Step::Ended)
    }

    // The record at the state's place.
    pub fn step_at(self, file: &[u8]) -> Result<Step, Refusal>
        requires { self.width ≤ 32 }
        ensures { result ≡ step_of file.now self }
    {
        let records = Records { file, at: self.at };
        match records.standing() {
            Ok(Record::Network { width, nodes }) => self.network(width, nodes),
            Ok(Record::Table { node }) => self.table(node),
            Ok(Record::Rule(written)) => self.rule(written),
            Ok(Record::End) => self.end(file.len()),
            Err(Unread::Short(case)) => Err(self.short(case)),
            Err(Unread::Unknown) => Err(Reason::UnknownKind.at(self.at)),
            Err(Unread::Missing) => Err(Reason::CutShort.at(file.len())),
        }
    }
}

// What a record does: it opens the network, begins a table, adds a rule to it, or ends the file.
#[derive(Clone, Copy)]
pub enum Step {
    Opened(State),
    Begun(State),
    Ruled(State, Rule),
    Ended,
}
