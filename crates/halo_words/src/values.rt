// What a line gives to its command, as clap reads it.
ghost use Rattle.std.specs.Prelude.{◌≡◌, ◌<◌, false, length, map, slice_get, Some, unwrap_or, IfOk, IfErr};
ghost use Rattle.clap.specs.Words.{rule_of, app_of, kind_of, found_of, first_value};
ghost use Rattle.halo_words.specs.Table.{the_table, choice_of, place_of, shape_of};
ghost use Rattle.halo_words.specs.Grammar.{texts, IsLineFor, AsksFor, option_in, operand_in};
ghost use Rattle.halo_words.specs.Stops.{StopsFor};
ghost use Rattle.halo_words.specs.Apps.{option_rule, operand_rule, new_app_for, with_rules, app_for, given_found};

use crate::forms::{Form, Operand, Setting};
use crate::lines::read_line;
use crate::reading::{find_operand, find_setting, setting_at};
use clap::error::ErrorKind;
use clap::{Arg, ArgAction, ArgMatches, Command, Error};
use std::alloc::{AllocError, Global};
use std::marker::Model;

/// What stops the reading of a line.
#[derive(Clone, Copy, Debug)]
pub enum Stop {
    /// The words are no line. The place, from 0, of the first word that no line has there, or the
    /// number of words where more would have to follow.
    Usage(u64),
    /// There is no memory for the values of the line.
    Memory,
}

/// What a line asks for: a command, with a value for each of its options and operands. Contracts see
/// the command's word and what is given to it.
#[derive(Drop)]
pub struct Values<'a> {
    form: Form,
    matches: ArgMatches<'a>,
}

impl<'a> Model for Values<'a> {
    ghost use Rattle.clap.specs.Matches.{found_of};
    ghost use Rattle.halo_words.specs.Table.{shape_of};
    ghost use Rattle.halo_words.specs.Grammar.{Asked};
    ghost use Rattle.halo_words.specs.Apps.{given_found};

    ghost Value = { Asked };

    ghost view = { λ values. record {
      word = values.form.word.now;
      given = given_found (shape_of values.form) (found_of values.matches);
    } };
}

impl<'a> Values<'a> {
    /// The word of the command.
    pub fn word(&self) -> &'a str
        ensures { result.now ≡ self.now.word }
    {
        self.form.word
    }

    /// The value of the option of this name, or its default; empty where the command has no such option.
    pub fn option(&self, name: &str) -> &'a str
        ensures { result.now ≡ option_in self.now.given name.now }
    {
        value_named(&self.matches, self.form, name)
    }

    /// The operand behind so many others; empty where the command has no such operand.
    pub fn operand(&self, at: usize) -> &'a str
        ensures { result.now ≡ operand_in self.now.given at }
    {
        match find_operand(self.form.operands, at) {
            Some(operand) => self.matches.get_str(operand.name).unwrap_or(""),
            None => "",
        }
    }
}

// The value of an option, or its default.
fn value_of<'a>(matches: &ArgMatches<'a>, setting: Setting) -> &'a str
    ensures { result.now ≡ unwrap_or (first_value (found_of matches.now) setting.name.now) setting.default.now }
{
    matches.get_str(setting.name).unwrap_or(setting.default)
}

// The value of the option of this name.
fn value_named<'a>(matches: &ArgMatches<'a>, form: Form, name: &str) -> &'a str
    ensures { result.now ≡ option_in (given_found (shape_of form) (found_of matches.now)) name.now }
{
    match find_setting(form.settings, name.as_bytes()) {
        Some(setting) => value_of(matches, setting),
        None => "",
    }
}

/// Reads a line of words. The words are tested by the grammar first, so a line is refused only for want of memory.
pub fn read_words<'a>(alloc: Global, words: &'a [String]) -> Result<Values<'a>, Stop>
    ensures asks { IfOk result (AsksFor the_table (texts words.entry.now)) }
    ensures stops { IfErr result (StopsFor (texts words.entry.now)) }
{
    let form = match read_line(words) {
        Ok(form) => form,
        Err(place) => return Err(Stop::Usage(place)),
    };
    match parse(alloc, form, words) {
        Ok(matches) => Ok(Values { form, matches }),
        Err(_) => Err(Stop::Memory),
    }
}

// An option, which takes one value.
fn option_arg<'a>(alloc: Global, setting: Setting) -> Arg<'a>
    ensures rule { rule_of result ≡ option_rule (choice_of setting) }
    ensures local { result.global ≡ false }
{
    Arg::new(alloc, setting.name)
        .long(setting.name)
        .action(ArgAction::Set)
}

// An operand, which is required.
fn operand_arg<'a>(alloc: Global, operand: Operand) -> Arg<'a>
    ensures rule { rule_of result ≡ operand_rule (place_of operand) }
    ensures local { result.global ≡ false }
{
    Arg::new(alloc, operand.name)
        .required(true)
        .action(ArgAction::Set)
}

// A command without flags and arguments.
fn bare_command<'a>(alloc: Global, form: Form) -> Command<'a>
    ensures { app_of result ≡ new_app_for form.word.now }
{
    Command::new(alloc, form.word)
        .disable_help_flag(true)
        .disable_version_flag(true)
}

// The command with these options.
fn with_options<'a>(
    alloc: Global,
    mut command: Command<'a>,
    settings: &[Setting],
) -> Result<Command<'a>, AllocError>
    ensures { IfOk result (λ new.
        app_of new ≡ with_rules (app_of command.entry) (map option_rule (map choice_of settings.now))) }
{
    for at in 0..settings.len() {
        let setting = setting_at(settings, at);
        command = command.arg(option_arg(alloc, setting))?;
    }
    Ok(command)
}

// The operand at this place.
fn operand_at(operands: &[Operand], at: usize) -> Operand
    requires { at < length operands.now }
    ensures { slice_get operands.now at ≡ Some result }
{
    operands[at]
}

// The command with these operands.
fn with_operands<'a>(
    alloc: Global,
    mut command: Command<'a>,
    operands: &[Operand],
) -> Result<Command<'a>, AllocError>
    ensures { IfOk result (λ new.
        app_of new ≡ with_rules (app_of command.entry) (map operand_rule (map place_of operands.now))) }
{
    for at in 0..operands.len() {
        let operand = operand_at(operands, at);
        command = command.arg(operand_arg(alloc, operand))?;
    }
    Ok(command)
}

// The command of clap for a command of the table.
fn command_for<'a>(alloc: Global, form: Form) -> Result<Command<'a>, AllocError>
    ensures { IfOk result (λ command. app_of command ≡ app_for (shape_of form)) }
{
    let command = with_options(alloc, bare_command(alloc, form), form.settings)?;
    with_operands(alloc, command, form.operands)
}

// The matches of a line. They are refused only for want of memory.
fn parse<'a>(alloc: Global, form: Form, words: &'a [String]) -> Result<ArgMatches<'a>, Error>
    requires { IsLineFor the_table (texts words.now) (shape_of form) }
    ensures refused { IfErr result (λ e. kind_of e ≡ ErrorKind.OutOfMemory) }
    ensures found { IfOk result (λ matches. AsksFor the_table (texts words.entry.now)
        (record { word = form.word.now; given = given_found (shape_of form) (found_of matches) })) }
{
    let command = command_for(alloc, form)?;
    command.try_get_matches_from(words)
}
