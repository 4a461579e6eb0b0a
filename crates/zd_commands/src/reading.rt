//! Reading words by the flags, the options and the plain words that a program has.

ghost use Rattle.std.specs.Prelude.{◌≡◌, map, string_bytes, Bool, Some, codes, if◌then◌else◌, IfNone, IfOk, IfSome};
ghost use Rattle.std.specs.Option.{option_copied};
ghost use Rattle.clap.specs.Words.{app_of, first_of, found_of, one_of, rows_of, new_rule};
ghost use Rattle.zd_commands.specs.Table.{IsRefused, IsTaken, app_with, flag_rule, option_rule, texts, with_rules};

use clap::error::ErrorKind;
use clap::{Arg, ArgAction, ArgMatches, Command};
use std::alloc::{AllocError, Global};
use zd_base::Memory;

/// The command with these flags too.
fn with_flags<'a>(
    alloc: Global,
    command: Command<'a>,
    names: &'static [&'static str],
) -> Result<Command<'a>, AllocError>
    ensures { IfOk result (λ made. app_of made ≡ with_rules (app_of command.entry) (map flag_rule (texts names.now))) }
{
    let mut command = command;
    for name in names {
        let flag = Arg::new(alloc, name).long(name).action(ArgAction::SetTrue);
        command = command.arg(flag)?;
    }
    Ok(command)
}

/// The command with these options too.
fn with_options<'a>(
    alloc: Global,
    command: Command<'a>,
    names: &'static [&'static str],
) -> Result<Command<'a>, AllocError>
    ensures { IfOk result (λ made. app_of made ≡ with_rules (app_of command.entry) (map option_rule (texts names.now))) }
{
    let mut command = command;
    for name in names {
        let option = Arg::new(alloc, name).long(name).action(ArgAction::Set);
        command = command.arg(option)?;
    }
    Ok(command)
}

/// The command with these plain words too.
fn with_places<'a>(
    alloc: Global,
    command: Command<'a>,
    names: &'static [&'static str],
) -> Result<Command<'a>, AllocError>
    ensures { IfOk result (λ made. app_of made ≡ with_rules (app_of command.entry) (map new_rule (texts names.now))) }
{
    let mut command = command;
    for name in names {
        let place = Arg::new(alloc, name);
        command = command.arg(place)?;
    }
    Ok(command)
}

/// The command of a program with these flags, options and plain words.
fn command<'a>(
    alloc: Global,
    flags: &'static [&'static str],
    options: &'static [&'static str],
    places: &'static [&'static str],
) -> Result<Command<'a>, AllocError>
    ensures { IfOk result (λ made. app_of made ≡ app_with (texts flags.now) (texts options.now) (texts places.now)) }
{
    let bare = Command::new(alloc, "words")
        .no_binary_name(true)
        .disable_help_flag(true);
    let flagged = with_flags(alloc, bare, flags)?;
    let optional = with_options(alloc, flagged, options)?;
    with_places(alloc, optional, places)
}

/// What clap finds in words; none where it refuses them.
pub(crate) fn matches<'a>(
    alloc: Global,
    flags: &'static [&'static str],
    options: &'static [&'static str],
    places: &'static [&'static str],
    words: &'a [String],
) -> Result<Option<ArgMatches<'a>>, Memory>
    ensures some { IfOk result (λ found. IfSome found
        (IsTaken (texts flags.now) (texts options.now) (texts places.now) (map string_bytes words.now))) }
    ensures none { IfOk result (λ found. IfNone found
        (IsRefused (texts flags.now) (texts options.now) (texts places.now) (map string_bytes words.now))) }
{
    let made = match command(alloc, flags, options, places) {
        Ok(made) => made,
        Err(AllocError) => return Err(Memory),
    };
    match made.try_get_matches_from(words) {
        Ok(found) => Ok(Some(found)),
        Err(error) => {
            if error.kind() == ErrorKind::OutOfMemory {
                return Err(Memory);
            }
            Ok(None)
        }
    }
}

/// Whether a flag stands.
pub(crate) fn stands(found: &ArgMatches<'_>, name: &str) -> bool
    ensures { (b : Bool) → one_of name.now (rows_of (found_of found.now)) ≡ Some (if b then codes "true" else codes "false")
        → result ≡ b }
{
    found.get_flag(name)
}

/// The value of an option, or the word at a place.
pub(crate) fn value<'a>(found: &ArgMatches<'a>, name: &str) -> Option<&'a str>
    ensures { option_copied result ≡ first_of name.now (rows_of (found_of found.now)) }
{
    found.get_str(name)
}
