//! Arguments and commands as rows, and what `clap` builds of them. Each program of the drive has
//! rows of its own.
ghost use Rattle.std.specs.Prelude.{◌≡◌, IfOk, Some, [], ◌∷◌, false};
ghost use Rattle.clap.specs.declared.builder.command.Command.TheViews.{out-Command as fields_of};
ghost use Rattle.clap.specs.Walk.{rule_of};
ghost use Rattle.clap.specs.Simple.{App, app_of, new_rule};
ghost use Rattle.s4d_command.specs.CommandLine.{IsLine};
ghost use Rattle.s4d_command.specs.Rows.{argument_rule, row_line, with_arguments, with_rows};

use clap::{Arg, ArgAction, Command};
use std::alloc::{AllocError, Global};

/// An argument: its name, what help calls its value if it has one, and what it does.
#[derive(Clone, Copy)]
pub enum Argument {
    /// `--name`, which is given or not.
    Flag(&'static str, &'static str),
    /// `--name VALUE`, which is given or not.
    Value(&'static str, &'static str, &'static str),
    /// `--name VALUE`, which has to be given.
    NeededValue(&'static str, &'static str, &'static str),
    /// `--name VALUE`, as often as it is given.
    Values(&'static str, &'static str, &'static str),
    /// `--name VALUE`, which has to be given, as often as it is.
    NeededValues(&'static str, &'static str, &'static str),
    /// A word that has to be given.
    Word(&'static str, &'static str, &'static str),
    /// A word that is given or not.
    OptionalWord(&'static str, &'static str, &'static str),
    /// `--name VALUE`, and the value that is where it isn't given. Help doesn't show it.
    Setting(&'static str, &'static str),
    /// A word that help doesn't show.
    Operand(&'static str),
    /// Words, as many as come, that help doesn't show.
    Operands(&'static str),
}

/// A command: its name, what it does, and its arguments.
#[derive(Clone, Copy)]
pub struct CommandRow {
    pub name: &'static str,
    pub about: &'static str,
    pub arguments: &'static [Argument],
}

fn option_of<'a>(
    alloc: Global,
    name: &'a str,
    value: &'a str,
    help: &'a str,
    action: ArgAction,
    is_needed: bool,
) -> Arg<'a>
    ensures rule { rule_of result ≡ record (new_rule name.entry.now) {
      long = Some name.entry.now;
      action = Some action;
      value_names = 1;
      required = is_needed;
    } }
    ensures own { result.global ≡ false }
{
    Arg::new(alloc, name)
        .long(name)
        .action(action)
        .value_name(value)
        .required(is_needed)
        .help(help)
}

fn word_of<'a>(
    alloc: Global,
    name: &'a str,
    value: &'a str,
    help: &'a str,
    is_needed: bool,
) -> Arg<'a>
    ensures rule { rule_of result ≡ record (new_rule name.entry.now) {
      action = Some ArgAction.Set;
      value_names = 1;
      required = is_needed;
    } }
    ensures own { result.global ≡ false }
{
    Arg::new(alloc, name)
        .action(ArgAction::Set)
        .value_name(value)
        .required(is_needed)
        .help(help)
}

fn flag_of<'a>(alloc: Global, name: &'a str, help: &'a str) -> Arg<'a>
    ensures rule { rule_of result ≡ record (new_rule name.entry.now) {
      long = Some name.entry.now;
      action = Some ArgAction.SetTrue;
    } }
    ensures own { result.global ≡ false }
{
    Arg::new(alloc, name)
        .long(name)
        .action(ArgAction::SetTrue)
        .help(help)
}

fn setting_of<'a>(alloc: Global, name: &'a str, default: &'a str) -> Arg<'a>
    ensures rule { rule_of result ≡ record (new_rule name.entry.now) {
      long = Some name.entry.now;
      action = Some ArgAction.Set;
      defaults = default.entry.now ∷ [];
    } }
    ensures own { result.global ≡ false }
{
    Arg::new(alloc, name)
        .long(name)
        .action(ArgAction::Set)
        .default_value(default)
}

fn operand_of<'a>(alloc: Global, name: &'a str, action: ArgAction) -> Arg<'a>
    ensures rule { rule_of result ≡ record (new_rule name.entry.now) { action = Some action } }
    ensures own { result.global ≡ false }
{
    Arg::new(alloc, name).action(action)
}

// The argument, as `clap` builds it.
fn argument_of<'a>(alloc: Global, argument: &Argument) -> Arg<'a>
    ensures rule { rule_of result ≡ argument_rule argument.now }
    ensures own { result.global ≡ false }
{
    match *argument {
        Argument::Flag(name, help) => flag_of(alloc, name, help),
        Argument::Value(name, value, help) => {
            option_of(alloc, name, value, help, ArgAction::Set, false)
        }
        Argument::NeededValue(name, value, help) => {
            option_of(alloc, name, value, help, ArgAction::Set, true)
        }
        Argument::Values(name, value, help) => {
            option_of(alloc, name, value, help, ArgAction::Append, false)
        }
        Argument::NeededValues(name, value, help) => {
            option_of(alloc, name, value, help, ArgAction::Append, true)
        }
        Argument::Word(name, value, help) => word_of(alloc, name, value, help, true),
        Argument::OptionalWord(name, value, help) => word_of(alloc, name, value, help, false),
        Argument::Setting(name, default) => setting_of(alloc, name, default),
        Argument::Operand(name) => operand_of(alloc, name, ArgAction::Set),
        Argument::Operands(name) => operand_of(alloc, name, ArgAction::Append),
    }
}

/// The command with these arguments more, in this order.
///
/// AllocError where memory was refused.
pub fn add_arguments<'a>(
    alloc: Global,
    mut command: Command<'a>,
    arguments: &[Argument],
) -> Result<Command<'a>, AllocError>
    ensures { (app : App) → app_of command.entry ≡ app
        → (fields_of command.entry).has_globals ≡ false
        → IsLine result (with_arguments arguments.entry.now app) }
{
    for argument in arguments {
        command = command.arg(argument_of(alloc, argument))?;
    }
    Ok(command)
}

// The command of a row.
fn command_of<'a>(alloc: Global, row: &CommandRow) -> Result<Command<'a>, AllocError>
    ensures { IsLine result (row_line row.now) }
{
    let command = Command::new(alloc, row.name).about(row.about);
    add_arguments(alloc, command, row.arguments)
}

/// The program with a command more for each row, in this order.
///
/// AllocError where memory was refused.
pub fn add_commands<'a>(
    alloc: Global,
    mut program: Command<'a>,
    rows: &[CommandRow],
) -> Result<Command<'a>, AllocError>
    ensures { (app : App) → app_of program.entry ≡ app
        → IfOk result (λ c. app_of c ≡ with_rows rows.entry.now app) }
{
    for row in rows {
        program = program.subcommand(command_of(alloc, row)?)?;
    }
    Ok(program)
}
