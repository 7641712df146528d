//! The commands and their arguments, as the parser of words has them.

ghost use Rattle.std.specs.Prelude.{◌≡◌, IfOk, false};
ghost use Rattle.clap.specs.declared.builder.command.Command.TheViews.{out-Command as fields_of};
ghost use Rattle.clap.specs.Words.{app_of, with_rule};
ghost use Rattle.auction.specs.Grammar.{check_grammar, hall_grammar, mail_grammar, solve_grammar, bare_grammar};
ghost use Rattle.auction.specs.Grammar.{grammar, flag_rule, option_rule, optioned_grammar};

use clap::{Arg, ArgAction, Command};
use std::alloc::{AllocError, Global};

/// One more option, `--NAME VALUE` or `--NAME=VALUE`.
fn with_option<'a>(
    alloc: Global,
    command: Command<'a>,
    name: &'a str,
) -> Result<Command<'a>, AllocError>
    ensures shape { IfOk result (λ c. app_of c ≡ with_rule (app_of command.entry) (option_rule name.entry.now)) }
    ensures local { (fields_of command.entry).has_globals ≡ false → IfOk result
        (λ c. (fields_of c).has_globals ≡ false) }
{
    command.arg(Arg::new(alloc, name).long(name))
}

/// One more flag, `--NAME`. It has no value of its own, and means `true`; where it isn't given, it has none.
fn with_flag<'a>(
    alloc: Global,
    command: Command<'a>,
    name: &'a str,
) -> Result<Command<'a>, AllocError>
    ensures shape { IfOk result (λ c. app_of c ≡ with_rule (app_of command.entry) (flag_rule name.entry.now)) }
    ensures local { (fields_of command.entry).has_globals ≡ false → IfOk result
        (λ c. (fields_of c).has_globals ≡ false) }
{
    let flag = Arg::new(alloc, name)
        .long(name)
        .action(ArgAction::Set)
        .num_args(0)
        .default_missing_value("true");
    command.arg(flag)
}

/// `check FILE [CERT] [--objects M] [--large]`.
fn check_command<'a>(alloc: Global) -> Result<Command<'a>, AllocError>
    ensures shape { IfOk result (λ c. app_of c ≡ check_grammar) }
    ensures local { IfOk result (λ c. (fields_of c).has_globals ≡ false) }
{
    let of_files = Command::new(alloc, "check")
        .disable_help_flag(true)
        .arg(Arg::new(alloc, "file").required(true))?
        .arg(Arg::new(alloc, "cert"))?;
    let with_objects = with_option(alloc, of_files, "objects")?;
    with_flag(alloc, with_objects, "large")
}

/// `hall [FILE] [--objects M] [--large]`.
fn hall_command<'a>(alloc: Global) -> Result<Command<'a>, AllocError>
    ensures shape { IfOk result (λ c. app_of c ≡ hall_grammar) }
    ensures local { IfOk result (λ c. (fields_of c).has_globals ≡ false) }
{
    let of_file = Command::new(alloc, "hall")
        .disable_help_flag(true)
        .arg(Arg::new(alloc, "file"))?;
    let with_objects = with_option(alloc, of_file, "objects")?;
    with_flag(alloc, with_objects, "large")
}

/// `mail [SCRIPT]`.
fn mail_command<'a>(alloc: Global) -> Result<Command<'a>, AllocError>
    ensures shape { IfOk result (λ c. app_of c ≡ mail_grammar) }
    ensures local { IfOk result (λ c. (fields_of c).has_globals ≡ false) }
{
    Command::new(alloc, "mail")
        .disable_help_flag(true)
        .arg(Arg::new(alloc, "script"))
}

/// `solve [FILE] [--workers K] [--bids N] [--audit ROOM] [--objects M] [--from CERT]`.
fn solve_with_options<'a>(alloc: Global) -> Result<Command<'a>, AllocError>
    ensures shape { IfOk result (λ c. app_of c ≡ optioned_grammar) }
    ensures local { IfOk result (λ c. (fields_of c).has_globals ≡ false) }
{
    let of_file = Command::new(alloc, "solve")
        .disable_help_flag(true)
        .arg(Arg::new(alloc, "file"))?;
    let with_workers = with_option(alloc, of_file, "workers")?;
    let with_bids = with_option(alloc, with_workers, "bids")?;
    let with_audit = with_option(alloc, with_bids, "audit")?;
    let with_objects = with_option(alloc, with_audit, "objects")?;
    with_option(alloc, with_objects, "from")
}

/// The same with `[--seconds T] [--direct] [--progress] [--large]`. The numbers are read after the parser, by
/// [`crate::numbers`].
fn solve_command<'a>(alloc: Global) -> Result<Command<'a>, AllocError>
    ensures shape { IfOk result (λ c. app_of c ≡ solve_grammar) }
    ensures local { IfOk result (λ c. (fields_of c).has_globals ≡ false) }
{
    let with_options = solve_with_options(alloc)?;
    let with_seconds = with_option(alloc, with_options, "seconds")?;
    let with_direct = with_flag(alloc, with_seconds, "direct")?;
    let with_progress = with_flag(alloc, with_direct, "progress")?;
    with_flag(alloc, with_progress, "large")
}

/// No command yet. Words that ask for help or for the version are at fault like others.
fn bare_command<'a>(alloc: Global) -> Command<'a>
    ensures { app_of result ≡ bare_grammar }
{
    Command::new(alloc, "auction")
        .no_binary_name(true)
        .disable_help_flag(true)
        .disable_version_flag(true)
        .disable_help_subcommand(true)
        .subcommand_required(true)
}

/// All commands.
pub(crate) fn all_commands<'a>(alloc: Global) -> Result<Command<'a>, AllocError>
    ensures { IfOk result (λ c. app_of c ≡ grammar) }
{
    let check = check_command(alloc)?;
    let hall = hall_command(alloc)?;
    let mail = mail_command(alloc)?;
    let solve = solve_command(alloc)?;
    bare_command(alloc)
        .subcommand(check)?
        .subcommand(hall)?
        .subcommand(mail)?
        .subcommand(solve)
}
