// The reader of a line: one word after the other, without taking memory.
ghost use Rattle.std.specs.Prelude.{◌≡◌, ◌<◌, ◌≤◌, ◌++◌, [], ℕ, List, true, length, map, codes, IfErr, IfSome, OnOk};
ghost use Rattle.std.specs.Prelude.{option_map, slice_get, Some};
ghost use Rattle.text_fields.specs.Reading.{Finds, after_front, cut_at};
ghost use Rattle.halo_words.specs.Table.{fits as fits_kind, has_kind as has_kind_of, choice_of, place_of, shape_of};
ghost use Rattle.halo_words.specs.Table.{choice_named};
ghost use Rattle.halo_words.specs.Sound.{is_short, is_short_option, is_short_shape, are_short_choices};
ghost use Rattle.halo_words.specs.Sound.{are_short_places};
ghost use Rattle.halo_words.specs.Grammar.{texts, is_among};
ghost use Rattle.halo_words.specs.Reading.{Ends, StopsAt, idle, is_end, named, front_name, names_in, reading_of};
ghost use Rattle.halo_words.specs.Reading.{operand_met, option_met, step as step_of};

use crate::forms::{Form, Kind, Operand, Setting};
use text_fields::{cut, expect, number};

/// What the words so far come to: how many operands there were, and the option that waits for its value.
#[derive(Clone, Copy, Debug)]
pub struct Read {
    count: usize,
    waiting: Option<Setting>,
}

// Whether the text may be a value or an operand of this kind.
fn fits(kind: Kind, text: &[u8]) -> bool
    requires { is_short kind ≡ true }
    ensures { result ≡ fits_kind kind text.now }
{
    match text {
        [] | [b'-', ..] => false,
        _ => has_kind(kind, text),
    }
}

fn has_kind(kind: Kind, text: &[u8]) -> bool
    requires { is_short kind ≡ true }
    ensures { result ≡ has_kind_of kind text.now }
{
    match kind {
        Kind::Number { least, most } => match number(text, most) {
            Some(n) => least <= n,
            None => false,
        },
        Kind::Name => true,
    }
}

/// The option at this place.
pub fn setting_at(settings: &[Setting], at: usize) -> Setting
    requires { at < length settings.now }
    ensures { slice_get settings.now at ≡ Some result }
{
    settings[at]
}

/// The first of the options with this name.
pub fn find_setting(settings: &'static [Setting], name: &[u8]) -> Option<Setting>
    ensures { option_map choice_of result ≡ choice_named (map choice_of settings.now) name.now }
{
    for at in 0..settings.len() {
        let setting = setting_at(settings, at);
        if setting.name.as_bytes() == name {
            return Some(setting);
        }
    }
    None
}

// The same, of options whose numbers can be read.
fn setting_named(settings: &'static [Setting], name: &[u8]) -> Option<Setting>
    requires { are_short_choices (map choice_of settings.now) ≡ true }
    ensures found { option_map choice_of result ≡ choice_named (map choice_of settings.now) name.now }
    ensures short { is_short_option (option_map choice_of result) ≡ true }
{
    find_setting(settings, name)
}

/// The operand behind so many others.
pub fn find_operand(operands: &'static [Operand], count: usize) -> Option<Operand>
    ensures { option_map place_of result ≡ slice_get (map place_of operands.now) count }
{
    operands.get(count).copied()
}

// The same, of operands whose numbers can be read.
fn operand_at(operands: &'static [Operand], count: usize) -> Option<Operand>
    requires { are_short_places (map place_of operands.now) ≡ true }
    ensures found { option_map place_of result ≡ slice_get (map place_of operands.now) count }
    ensures short { IfSome result (λ operand. is_short operand.kind ≡ true) }
{
    find_operand(operands, count)
}

// The name in `name` or `name=value`.
fn front_of(rest: &[u8]) -> &[u8]
    ensures { result.now ≡ front_name rest.now (cut_at 61 rest.now) }
{
    if let Some((name, _)) = cut(rest, b'=') {
        return name;
    }
    rest
}

// Whether the word gives the option of this name.
#[tactic(auto, unfolding(crate::specs::Reading::named))]
fn gives(word: &str, name: &[u8]) -> bool
    ensures { result ≡ is_among name.now (named word.now) }
{
    match expect(word.as_bytes(), b"--") {
        Some(rest) => front_of(rest) == name,
        None => false,
    }
}

// Whether one of the words gives the option of this name.
fn is_named(words: &[String], name: &[u8]) -> bool
    ensures { result ≡ is_among name.now (names_in (texts words.now)) }
{
    for word in words {
        if gives(word.as_str(), name) {
            return true;
        }
    }
    false
}

// Reads one more word behind these.
#[tactic(auto, unfolding(crate::specs::Reading::step))]
fn step(form: Form, read: Read, front: &[String], word: &str) -> Option<Read>
    requires short { is_short_shape (shape_of form) ≡ true }
    requires waits { is_short_option (option_map choice_of read.waiting) ≡ true }
    ensures met { Finds (λ next. reading_of (names_in (texts front.now) ++ named word.now) next) result
        (step_of (shape_of form) (reading_of (names_in (texts front.now)) read) word.now) }
    ensures waits { IfSome result (λ next. is_short_option (option_map choice_of next.waiting) ≡ true) }
{
    if let Some(setting) = read.waiting {
        if !fits(setting.kind, word.as_bytes()) {
            return None;
        }
        return Some(Read {
            count: read.count,
            waiting: None,
        });
    }
    match expect(word.as_bytes(), b"--") {
        None => operand(form.operands, read, word),
        Some(rest) => option(form.settings, read, front, word, rest),
    }
}

// Reads a word that is an operand.
fn operand(operands: &'static [Operand], read: Read, word: &str) -> Option<Read>
    requires short { are_short_places (map place_of operands.now) ≡ true }
    ensures met { (seen : List (List ℕ)) → Finds (λ next. reading_of (seen ++ named word.now) next) result
        (operand_met (slice_get (map place_of operands.now) read.count) (reading_of seen read) word.now) }
    ensures waits { IfSome result (λ next. is_short_option (option_map choice_of next.waiting) ≡ true) }
{
    let place = operand_at(operands, read.count)?;
    if !fits(place.kind, word.as_bytes()) {
        return None;
    }
    Some(Read {
        count: read.count + 1,
        waiting: None,
    })
}

// Reads a word that gives an option; `rest` is what stands behind its two dashes.
fn option(
    settings: &'static [Setting],
    read: Read,
    front: &[String],
    word: &str,
    rest: &[u8],
) -> Option<Read>
    requires short { are_short_choices (map choice_of settings.now) ≡ true }
    requires behind { after_front (codes "--") word.now ≡ Some rest.now }
    ensures met { Finds (λ next. reading_of (names_in (texts front.now) ++ named word.now) next) result
        (option_met (map choice_of settings.now) rest.now (cut_at 61 rest.now)
        (reading_of (names_in (texts front.now)) read) word.now) }
    ensures waits { IfSome result (λ next. is_short_option (option_map choice_of next.waiting) ≡ true) }
{
    match cut(rest, b'=') {
        None => {
            let setting = setting_named(settings, rest)?;
            if is_named(front, rest) {
                return None;
            }
            Some(Read {
                count: read.count,
                waiting: Some(setting),
            })
        }
        Some((name, value)) => {
            let setting = setting_named(settings, name)?;
            if is_named(front, name) || !fits(setting.kind, value) {
                return None;
            }
            Some(Read {
                count: read.count,
                waiting: None,
            })
        }
    }
}

// Whether the line may end behind what was read.
fn ends(form: Form, read: Read) -> bool
    ensures { (seen : List (List ℕ)) → result ≡ is_end (shape_of form) (reading_of seen read) }
{
    read.waiting.is_none() && form.operands.len() == read.count
}

/// Reads the words behind a command. The error is the place among them of the first that may not
/// stand there, or their number where more would have to follow.
pub fn read_items(form: Form, words: &[String]) -> Result<(), usize>
    requires { is_short_shape (shape_of form) ≡ true }
    ensures ok { OnOk result (Ends (shape_of form) (idle [] 0) (texts words.now)) }
    ensures wrong { IfErr result (λ at. StopsAt (shape_of form) (texts words.now) at) }
    ensures within { IfErr result (λ at. at ≤ length words.now) }
{
    let mut read = Read {
        count: 0,
        waiting: None,
    };
    for at in 0..words.len() {
        match step(form, read, &words[..at], words[at].as_str()) {
            Some(next) => read = next,
            None => return Err(at),
        }
    }
    if ends(form, read) {
        Ok(())
    } else {
        Err(words.len())
    }
}
