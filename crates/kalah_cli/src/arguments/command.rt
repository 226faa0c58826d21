//! The command line of the program.
ghost use Rattle.std.specs.Prelude.{◌≡◌, IfOk, fold};
ghost use Rattle.clap.specs.Words.{app_of};
ghost use Rattle.kalah_cli.specs.Arguments.Command.{IsReadBy, argument_rule, kalah_app, program_app, subcommand_app, with_listed};

use crate::arguments::help;
use crate::arguments::subcommands::{Argument, ArgumentKind, SUBCOMMANDS, Subcommand};
use clap::builder::ValueParser;
use clap::{Arg, ArgAction, Command};
use std::alloc::{AllocError, Global};

// Returns an argument as the command line reads it.
fn clap_arg<'a>(alloc: Global, argument: &Argument) -> Arg<'a>
    ensures { IsReadBy (argument_rule argument.now) result }
{
    let arg = Arg::new(alloc, argument.name).help(argument.help);
    match argument.kind {
        ArgumentKind::Flag => arg.long(argument.name).action(ArgAction::SetTrue),
        ArgumentKind::NumberOption {
            value_name,
            most,
            long_help,
        } => {
            arg.long(argument.name)
                .value_name(value_name)
                .long_help(long_help)
                .value_parser(ValueParser::Unsigned(1, most))
        }
        ArgumentKind::PositionalNumber { value_name, most } => arg
            .value_name(value_name)
            .required(true)
            .value_parser(ValueParser::Unsigned(0, most)),
        ArgumentKind::PositionalText { value_name, action } => {
            arg.value_name(value_name).required(true).action(action)
        }
    }
}

fn clap_subcommand<'a>(alloc: Global, subcommand: &Subcommand) -> Result<Command<'a>, AllocError>
    ensures { IfOk result (λ c. app_of c ≡ subcommand_app subcommand.now) }
{
    let mut command = Command::new(alloc, subcommand.name)
        .about(subcommand.about)
        .after_help(help::SHORT_OF_SUBCOMMAND)
        .after_long_help(subcommand.long_help);
    for argument in subcommand.arguments {
        command = command.arg(clap_arg(alloc, argument))?;
    }
    Ok(command)
}

// Returns the program with these subcommands.
fn program_with<'a>(alloc: Global, subcommands: &[Subcommand]) -> Result<Command<'a>, AllocError>
    ensures { IfOk result (λ c. app_of c ≡ fold with_listed program_app subcommands.now) }
{
    // If the version is asked for, `end_without_request` writes it.
    let mut command = Command::new(alloc, "kalah")
        .about("Solve small positions of Kalah: the best house and the margin of best play")
        .long_about(help::ABOUT)
        .version(help::VERSION_LINE)
        .after_help(help::SHORT)
        .after_long_help(help::LONG)
        .subcommand_required(true)
        .disable_help_subcommand(true);
    for subcommand in subcommands {
        command = command.subcommand(clap_subcommand(alloc, subcommand)?)?;
    }
    Ok(command)
}

/// Returns the command line of the program: it asks for one of `SUBCOMMANDS`, or for help or the version. It is complete: nothing is
/// added to it before a parse. Fails with `AllocError` only if memory was refused.
pub fn command<'a>(alloc: Global) -> Result<Command<'a>, AllocError>
    ensures { IfOk result (λ c. app_of c ≡ kalah_app) }
{
    program_with(alloc, SUBCOMMANDS)
}
