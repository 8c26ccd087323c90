// Where the words of a line give an option its value.
ghost use Rattle.std.specs.Prelude.{◌≡◌, ◌<◌, ◌^◌, length, drop, unwrap_or, Some, None, if◌then◌else◌};
ghost use Rattle.halo_words.specs.Table.{the_table};
ghost use Rattle.halo_words.specs.Grammar.{texts, Asked, AsksFor, value_place};
ghost use Rattle.halo_words.specs.Reading.{place_by, first_place};

use text_fields::{cut, expect};

/// The place, from 0, of the word that has the value of the option of this name, in a line of the table; the number of
/// words where the option isn't given.
pub fn place_of_value(words: &[String], name: &str) -> u64
    ensures { (asked : Asked) (asks : AsksFor the_table (texts words.now) asked)
        → result ≡ unwrap_or (value_place name.now 1 asks.items) (length words.now) }
{
    first_given(words, name.as_bytes()) as u64
}

// The place of the first value that the words behind the command give to the option of this name; their number where
// none does.
fn first_given(words: &[String], name: &[u8]) -> usize
    ensures { result ≡ unwrap_or (first_place name.now 1 (drop 1 (texts words.now))) (length words.now) }
{
    for at in 1..words.len() {
        if let Some(place) = given_by(words[at].as_str(), name, at) {
            return place;
        }
    }
    words.len()
}

// The place of the value that the word at this place gives to the option of this name.
#[tactic(auto, unfolding(crate::specs::Reading::place_by))]
fn given_by(word: &str, name: &[u8], at: usize) -> Option<usize>
    requires { at < 2 ^ 63 }
    ensures { result ≡ place_by name.now word.now at }
{
    let rest = expect(word.as_bytes(), b"--")?;
    match cut(rest, b'=') {
        None => at_if(rest == name, at + 1),
        Some((front, _)) => at_if(front == name, at),
    }
}

// The place, where the test is true.
fn at_if(test: bool, at: usize) -> Option<usize>
    ensures { result ≡ (if test then Some at else None) }
{
    if test { Some(at) } else { None }
}
