// Filters as patterns: a care mask and a value, the two notations of a mask, and what two patterns have to do with each other.
#![tactic(auto)]

ghost use Rattle.std.specs.Prelude.{◌≡◌, ◌-◌, ◌^◌, ◌≤◌, ◌<◌};
ghost use Rattle.pattern.specs.Filters.{hits, within, agree, common, held, header_of};
ghost use Rattle.pattern.specs.Notations.{caring_of, freeing_of, noted_of};

// A header width: at most 32 bits.
#[derive(Clone, Copy)]
pub struct Width {
    pub bits: u8,
    pub ghost short: { bits ≤ 32 },
}

// A filter: the cared bits, and the value at them. The order is by care mask, then value.
#[derive(Clone, Copy, PartialEq, Eq, PartialOrd, Ord)]
pub struct Pattern {
    pub care: u32,
    pub value: u32,
}

// What is wrong with a filter as it is written.
#[derive(Clone, Copy, PartialEq, Eq)]
pub enum Flaw {
    // The mask has a one above the width.
    WideMask,
    // The value has a one above the width.
    WideValue,
    // The value has a one at a free bit.
    ValueAtFree,
}

impl Width {
    // The number of headers of this width.
    pub fn headers(self) -> u64
        ensures { result ≡ 2 ^ self.bits }
    {
        1u64 << self.bits
    }

    // The low bits, all ones.
    pub fn low_ones(self) -> u32
        ensures { result ≡ 2 ^ self.bits - 1 }
    {
        (self.headers() - 1) as u32
    }
}

// A filter by its care mask, with the mask as it is written.
#[tactic(auto, using(crate::proofs::Notes::wide_mask, crate::proofs::Notes::wide_value, crate::proofs::Notes::fine, crate::proofs::Notes::at_free))]
fn filter_of(width: Width, care: u32, mask: u32, value: u32) -> Result<Pattern, Flaw>
    ensures { result ≡ noted_of width.bits care mask value }
{
    let most = width.low_ones();
    if most < mask {
        Err(Flaw::WideMask)
    } else if most < value {
        Err(Flaw::WideValue)
    } else if value & care == value {
        Ok(Pattern { care, value })
    } else {
        Err(Flaw::ValueAtFree)
    }
}

impl Pattern {
    // The pattern that every header matches.
    pub const ALL_FREE: Pattern = Pattern { care: 0, value: 0 };

    // The first notation: a mask's one is a bit that must match.
    pub fn caring(width: Width, mask: u32, value: u32) -> Result<Pattern, Flaw>
        ensures { result ≡ caring_of width.bits mask value }
    {
        filter_of(width, mask, mask, value)
    }

    // The second notation: a mask's one is a bit that is free.
    pub fn freeing(width: Width, mask: u32, value: u32) -> Result<Pattern, Flaw>
        ensures { result ≡ freeing_of width.bits mask value }
    {
        filter_of(width, width.low_ones() ^ mask, mask, value)
    }

    // The pattern of one header: every bit is cared for.
    pub fn of_header(width: Width, header: u32) -> Pattern
        ensures { result ≡ header_of width.bits header }
    {
        Pattern {
            care: width.low_ones(),
            value: header,
        }
    }

    // Whether a header matches.
    pub fn hits(self, header: u32) -> bool
        ensures { result ≡ hits self header }
    {
        header & self.care == self.value
    }

    // Whether every header of this pattern is one of the other's.
    pub fn within(self, other: Pattern) -> bool
        ensures { result ≡ within self other }
    {
        self.care & other.care == other.care && self.value & other.care == other.value
    }

    // Whether the two have anything in common.
    pub fn agrees(self, other: Pattern) -> bool
        ensures { result ≡ agree self other }
    {
        let both = self.care & other.care;
        self.value & both == other.value & both
    }

    // The common part of two that agree.
    pub fn common(self, other: Pattern) -> Pattern
        ensures { result ≡ common self other }
    {
        Pattern {
            care: self.care | other.care,
            value: self.value | other.value,
        }
    }

    // How many headers of `width` bits it holds.
    pub fn held(self, width: Width) -> u64
        requires { self.care < 2 ^ width.bits }
        ensures { result ≡ held width.bits self }
    {
        1u64 << (u32::from(width.bits) - self.care.count_ones())
    }
}
