// What the lines are made of: a text, a number or an address between texts.
ghost use Rattle.std.specs.Prelude.{◌≡◌, ◌+◌, ◌≤◌, ◌++◌, length, codes, decimal};
ghost use Rattle.text_fields.specs.Writing.{hex8};

use arrayvec::ArrayString;
use itoa::Buffer;
use text_fields::hex_digits;

/// A line on note, of at most 80 bytes. The longest has 59: `halo: file: section I entry E symbol out`
/// with two numbers of ten digits.
pub type Line = ArrayString<80>;

/// The line of a text behind a front.
pub fn text_line(front: &str, text: &str) -> Line
    requires front { length front.now ≤ 19 }
    requires text { length text.now ≤ 60 }
    ensures { result.bytes ≡ front.now ++ text.now ++ codes "\n" }
{
    let mut line = Line::new();
    line.push_str(front);
    line.push_str(text);
    line.push_str("\n");
    line
}

/// The line of a decimal number between two texts.
pub fn number_line(front: &str, number: u64, back: &str) -> Line
    requires front { length front.now ≤ 30 }
    requires back { length back.now ≤ 30 }
    ensures { result.bytes ≡ front.now ++ decimal number ++ back.now }
{
    let mut line = Line::new();
    line.push_str(front);
    line.push_str(Buffer::new().format(number));
    line.push_str(back);
    line
}

/// The line of a word's eight hexadecimal digits between two texts.
pub fn address_line(front: &str, address: u32, back: &str) -> Line
    requires front { length front.now ≤ 30 }
    requires back { length back.now ≤ 30 }
    ensures { result.bytes ≡ front.now ++ hex8 address ++ back.now }
{
    let mut line = Line::new();
    line.push_str(front);
    push_address(&mut line, address);
    line.push_str(back);
    line
}

/// Adds the eight hexadecimal digits of a word, in lower case.
#[tactic(auto, unfolding(text_fields::specs::Writing::hex8))]
pub fn push_address(line: &mut Line, word: u32)
    requires { length line.old.bytes ≤ 60 }
    ensures exact { line.new.bytes ≡ line.old.bytes ++ hex8 word }
    ensures size { length line.new.bytes ≡ length line.old.bytes + 8 }
{
    let digits = hex_digits(word);
    for digit in digits {
        line.push(char::from(digit));
    }
}
