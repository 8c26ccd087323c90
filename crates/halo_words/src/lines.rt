// A line of words: its command, and whether it is a line of the table.
ghost use Rattle.std.specs.Prelude.{◌≡◌, ◌<◌, ◌∷◌, [], length, map, option_map, slice_get, Some, IfOk, IfErr, IfSome};
ghost use Rattle.std.specs.Prelude.{IfNone};
ghost use Rattle.halo_words.specs.Table.{the_table, shape_of, shape_named};
ghost use Rattle.halo_words.specs.Grammar.{texts, IsLineFor, IsFirstWrong};

use crate::forms::{Form, all_forms};
use crate::reading::read_items;

// The command at this place.
fn form_at(forms: &[Form], at: usize) -> Form
    requires { at < length forms.now }
    ensures { slice_get forms.now at ≡ Some result }
{
    forms[at]
}

// The first of the commands with this word.
fn form_named(forms: &[Form], word: &[u8]) -> Option<Form>
    ensures { option_map shape_of result ≡ shape_named (map shape_of forms.now) word.now }
{
    for at in 0..forms.len() {
        let form = form_at(forms, at);
        if form.word.as_bytes() == word {
            return Some(form);
        }
    }
    None
}

// The word of the command, and the words behind it.
fn split_line(words: &[String]) -> Option<(&str, &[String])>
    ensures some { IfSome result (λ parts. texts words.now ≡ parts.0.now ∷ texts parts.1.now) }
    ensures rest { IfSome result (λ parts. length parts.1.now < length words.now) }
    ensures none { IfNone result (texts words.now ≡ []) }
{
    let (command, rest) = words.split_first()?;
    Some((command.as_str(), rest))
}

/// Reads a line: its command. The error is the place, from 0, of the first word that no line of the
/// table has there, or the number of words where more would have to follow.
pub fn read_line(words: &[String]) -> Result<Form, u64>
    ensures line { IfOk result (λ form. IsLineFor the_table (texts words.now) (shape_of form)) }
    ensures wrong { IfErr result (λ place. IsFirstWrong the_table (texts words.now) place) }
{
    let Some((command, rest)) = split_line(words) else {
        return Err(0);
    };
    let Some(form) = form_named(&all_forms(), command.as_bytes()) else {
        return Err(0);
    };
    match read_items(form, rest) {
        Ok(()) => Ok(form),
        Err(at) => Err(at as u64 + 1),
    }
}
