// The pieces of a line: decimal numbers, the letters of a pattern, the nodes of a cycle. Each `push_` function appends its piece.
ghost use Rattle.std.specs.Prelude.{◌≡◌, [], ◌∷◌, ◌++◌, ◌+◌, ◌*◌, ◌≤◌, ◌<◌, length};
ghost use Rattle.arrayvec.specs.ArrayString.{array_string_len};
ghost use Rattle.printing.specs.Text.{letters, letter as letter_of};
ghost use Rattle.printing.specs.Lines.{nodes as nodes_of};

use crate::Line;
use itoa::{Buffer, Integer};
use pattern::{Pattern, Width};

// A number in decimal.
pub(crate) fn push_number<I: Integer>(line: &mut Line, n: I)
    requires { array_string_len line.old + I.MAX_STR_LEN ≤ 300 }
    ensures text { line.new.bytes ≡ line.old.bytes ++ I.text n }
    ensures upper_bound { array_string_len line.new ≤ array_string_len line.old + I.MAX_STR_LEN }
{
    line.push_str(Buffer::new().format(n));
}

// The letter of one bit.
fn letter(pattern: Pattern, bit: u8) -> &'static str
    requires { bit < 32 }
    ensures { result.now ≡ letter_of pattern bit ∷ [] }
{
    if (pattern.care >> bit) % 2 == 0 {
        "*"
    } else if (pattern.value >> bit) % 2 == 0 {
        "0"
    } else {
        "1"
    }
}

// The letters of a pattern, from the highest bit down.
#[tactic(auto, unfolding(crate::specs::Text::letters))]
pub(crate) fn push_letters(line: &mut Line, width: Width, pattern: Pattern)
    requires { array_string_len line.old + width.bits ≤ 300 }
    ensures text { line.new.bytes ≡ line.old.bytes ++ letters width.bits pattern }
    ensures len { array_string_len line.new ≡ array_string_len line.old + width.bits }
{
    for bit in (0..width.bits).rev() {
        line.push_str(letter(pattern, bit));
    }
}

// The nodes of a cycle, each after a blank, as far as the cycle goes.
pub(crate) fn push_nodes(line: &mut Line, cycle: &[u8])
    requires { array_string_len line.old + 4 * length cycle.now ≤ 300 }
    ensures text { line.new.bytes ≡ line.old.bytes ++ nodes_of cycle.now }
    ensures upper_bound { array_string_len line.new ≤ array_string_len line.old + 4 * length cycle.now }
{
    for node in cycle {
        if *node == 255 {
            return;
        }
        line.push_str(" ");
        push_number(line, *node);
    }
}
