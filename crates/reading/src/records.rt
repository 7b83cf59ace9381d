// The record reader: what stands at a place of the file, whatever the reading has met before it.
ghost use Rattle.std.specs.Prelude.{◌≡◌, ◌+◌, ◌≤◌, ◌<◌, length};
ghost use Rattle.reading.specs.Kinds.{shape_of, number_at};
ghost use Rattle.reading.specs.Code.{noted_in, rule_shape, written_at, action_at, whole_at, record_at, Whole};

use crate::Action;
use pattern::{Flaw, Pattern, Width};

// The two notations of a mask: its ones are the cared bits, or the free ones.
#[derive(Clone, Copy)]
pub enum Notation {
    Caring,
    Freeing,
}

// What a rule's kind says that it does.
#[derive(Clone, Copy)]
pub enum Doing {
    Forwards,
    Drops,
    Delivers,
}

// A record's case by its kind byte.
#[derive(Clone, Copy)]
pub enum Case {
    Network,
    Table,
    Rule(Notation, Doing),
    End,
}

// What the kind byte fixes: the record's case and the length of its body.
#[derive(Clone, Copy)]
pub struct Shape {
    pub case: Case,
    pub body: usize,
}

// A rule record as it is written, with the length of its body.
#[derive(Clone, Copy)]
pub struct Written {
    pub notation: Notation,
    pub mask: u32,
    pub value: u32,
    pub action: Action,
    pub body: usize,
}

impl Written {
    // The filter that it writes.
    pub fn filter(self, width: Width) -> Result<Pattern, Flaw>
        ensures { result ≡ noted_in width.bits self }
    {
        match self.notation {
            Notation::Caring => Pattern::caring(width, self.mask, self.value),
            Notation::Freeing => Pattern::freeing(width, self.mask, self.value),
        }
    }
}

// A record with its fields.
#[derive(Clone, Copy)]
pub enum Record {
    Network { width: u8, nodes: u8 },
    Table { node: u8 },
    Rule(Written),
    End,
}

// Why no record is read at a place: the file ends there, the kind is none, or the file's end cuts the body short.
#[derive(Clone, Copy)]
pub enum Unread {
    Missing,
    Unknown,
    Short(Case),
}

// The rule kinds of one notation: the first forwards and names the next node after mask and value.
fn rule_shape(notation: Notation, nth: u8) -> Shape
    ensures { result ≡ rule_shape notation nth }
{
    match nth {
        0 => Shape {
            case: Case::Rule(notation, Doing::Forwards),
            body: 9,
        },
        1 => Shape {
            case: Case::Rule(notation, Doing::Drops),
            body: 8,
        },
        _ => Shape {
            case: Case::Rule(notation, Doing::Delivers),
            body: 8,
        },
    }
}

// The table of kinds.
#[tactic(auto, using(crate::proofs::Shapes::caring_kinds, crate::proofs::Shapes::freeing_kinds, crate::proofs::Shapes::unknown_kind), unfolding(crate::specs::Kinds::shape_of))]
pub fn shape_of(kind: u8) -> Option<Shape>
    ensures { result ≡ shape_of kind }
{
    let shape = match kind {
        0x01 => Shape {
            case: Case::Network,
            body: 2,
        },
        0x02 => Shape {
            case: Case::Table,
            body: 1,
        },
        0x03..=0x05 => rule_shape(Notation::Caring, kind - 0x03),
        0x13..=0x15 => rule_shape(Notation::Freeing, kind - 0x13),
        0x7F => Shape {
            case: Case::End,
            body: 0,
        },
        _ => return None,
    };
    Some(shape)
}

// The lent file, and the place of the record that is next.
#[derive(Clone, Copy)]
pub struct Records<'a> {
    pub file: &'a [u8],
    pub at: usize,
}

impl<'a> Records<'a> {
    // The records of a file, from its beginning.
    pub fn open(file: &'a [u8]) -> Records<'a>
        ensures { (result.file ≡ file.entry) × (result.at ≡ 0) }
    {
        Records { file, at: 0 }
    }

    // The same file at another place.
    pub fn moved(self, at: usize) -> Records<'a>
        ensures { (result.file ≡ self.entry.file) × (result.at ≡ at) }
    {
        Records { at, ..self }
    }

    // Four bytes as a big-endian number, this far behind the place.
    fn number(self, ahead: usize) -> u32
        requires { self.at + ahead + 4 ≤ length self.file.now }
        ensures { result ≡ number_at self.entry.file.now (self.entry.at + ahead) }
    {
        let at = self.at + ahead;
        u32::from_be_bytes([
            self.file[at],
            self.file[at + 1],
            self.file[at + 2],
            self.file[at + 3],
        ])
    }

    // What the rule record at the place does.
    fn action(self, doing: Doing) -> Action
        requires { doing ≡ Doing.Forwards → self.at + 9 < length self.file.now }
        ensures { result ≡ action_at self.entry.file.now self.entry.at doing }
    {
        match doing {
            Doing::Forwards => Action::Forward(self.file[self.at + 9]),
            Doing::Drops => Action::Drop,
            Doing::Delivers => Action::Deliver,
        }
    }

    // The rule record at the place, whose body is all there.
    fn rule(self, notation: Notation, doing: Doing, body: usize) -> Record
        requires { Whole self.file.now self.at (Case.Rule notation doing) }
        ensures { result ≡ written_at self.entry.file.now self.entry.at notation doing body }
    {
        let action = self.action(doing);
        Record::Rule(Written {
            notation,
            mask: self.number(1),
            value: self.number(5),
            action,
            body,
        })
    }

    // The record of a shape at the place, whose body is all there.
    #[tactic(auto, unfolding(crate::specs::Code::whole_at))]
    fn whole(self, shape: Shape) -> Record
        requires { Whole self.file.now self.at shape.case }
        ensures { result ≡ whole_at self.entry.file.now self.entry.at shape.case shape.body }
    {
        match shape.case {
            Case::Network => Record::Network {
                width: self.file[self.at + 1],
                nodes: self.file[self.at + 2],
            },
            Case::Table => Record::Table {
                node: self.file[self.at + 1],
            },
            Case::Rule(notation, doing) => self.rule(notation, doing, shape.body),
            Case::End => Record::End,
        }
    }

    // What stands at the place.
    #[tactic(auto, using(crate::proofs::Places::missing_record, crate::proofs::Places::unknown_record, crate::proofs::Places::short_record, crate::proofs::Places::whole_there, crate::proofs::Places::whole_record), unfolding(crate::specs::Code::record_at))]
    pub fn standing(self) -> Result<Record, Unread>
        ensures { result ≡ record_at self.entry.file.now self.entry.at }
    {
        if self.file.len() <= self.at {
            return Err(Unread::Missing);
        }
        let Some(shape) = shape_of(self.file[self.at]) else {
            return Err(Unread::Unknown);
        };
        if self.file.len() - self.at <= shape.body {
            return Err(Unread::Short(shape.case));
        }
        Ok(self.whole(shape))
    }
}
