//! The words of the command line, as `clap` takes them.
ghost use Rattle.std.specs.Prelude.{◌≡◌, IfOk, codes, false, map, option_map, string_bytes};
ghost use Rattle.clap.specs.Words.{all_of, app_of, first_of, found_of, rows_of, rule_of};
ghost use Rattle.synth_cmd.specs.CommandLine as spec;
ghost use Rattle.synth_cmd.specs.Words.{IsParsed, said_of};

use ae_base::Memory;
use clap::error::ErrorKind;
use clap::{Arg, ArgMatches, Command};
use std::alloc::{AllocError, Global};

/// What the words say: the mode, the names, and the value of each option that is given.
#[derive(Clone, Copy)]
pub struct Said<'m, 'a> {
    pub mode: &'a str,
    pub names: Option<&'m [&'a str]>,
    pub kind: Option<&'a str>,
    pub form: Option<&'a str>,
    pub polarity: Option<&'a str>,
}

fn mode<'a>(alloc: Global) -> Arg<'a>
    ensures rule { rule_of result ≡ spec.mode_rule }
    ensures local { result.global ≡ false }
{
    Arg::new(alloc, "MODE").required(true)
}

fn names<'a>(alloc: Global) -> Arg<'a>
    ensures rule { rule_of result ≡ spec.names_rule }
    ensures local { result.global ≡ false }
{
    Arg::new(alloc, "NAMES").num_args(1..)
}

fn option<'a>(alloc: Global, name: &'a str) -> Arg<'a>
    ensures rule { rule_of result ≡ spec.option_rule name.entry.now }
    ensures local { result.global ≡ false }
{
    Arg::new(alloc, name).long(name)
}

/// The command without its arguments. The words that it takes do not begin with the program's name.
fn bare<'a>(alloc: Global) -> Command<'a>
    ensures { app_of result ≡ spec.bare }
{
    Command::new(alloc, "andexor")
        .disable_help_flag(true)
        .disable_version_flag(true)
        .disable_help_subcommand(true)
        .no_binary_name(true)
}

fn positionals<'a>(alloc: Global) -> Result<Command<'a>, AllocError>
    ensures { IfOk result (λ c. app_of c ≡ spec.positionals) }
{
    bare(alloc).arg(mode(alloc))?.arg(names(alloc))
}

/// The whole command.
fn command_line<'a>(alloc: Global) -> Result<Command<'a>, AllocError>
    ensures { IfOk result (λ c. app_of c ≡ spec.command_line) }
{
    positionals(alloc)?
        .arg(option(alloc, "kind"))?
        .arg(option(alloc, "form"))?
        .arg(option(alloc, "polarity"))
}

/// The matches of the words, or nothing where the command does not take them.
pub fn parse<'a>(alloc: Global, words: &'a [String]) -> Result<Option<ArgMatches<'a>>, Memory>
    ensures { IfOk result (λ matches. IsParsed (map string_bytes words.entry.now) matches) }
{
    let Ok(command) = command_line(alloc) else {
        return Err(Memory);
    };
    match command.try_get_matches_from(words) {
        Ok(matches) => Ok(Some(matches)),
        Err(error) => {
            if error.kind() == ErrorKind::OutOfMemory {
                Err(Memory)
            } else {
                Ok(None)
            }
        }
    }
}

/// The value of an argument, where it is given.
fn value<'a>(matches: &ArgMatches<'a>, id: &str) -> Option<&'a str>
    ensures { option_map (λ s. s.now) result ≡ first_of id.now (rows_of (found_of matches.now)) }
{
    matches.get_str(id)
}

/// The names, where there are some.
fn names_in<'m, 'a>(matches: &'m ArgMatches<'a>) -> Option<&'m [&'a str]>
    ensures { option_map (λ s. map (λ v. v.now) s.now) result ≡ all_of (codes "NAMES") (rows_of (found_of matches.entry.now)) }
{
    matches.get_strs("NAMES")
}

/// What the matches say.
pub fn said_by<'m, 'a>(matches: &'m ArgMatches<'a>) -> Said<'m, 'a>
    ensures { said_of result ≡ spec.said_by (rows_of (found_of matches.entry.now)) }
{
    Said {
        mode: value(matches, "MODE").unwrap_or(""),
        names: names_in(matches),
        kind: value(matches, "kind"),
        form: value(matches, "form"),
        polarity: value(matches, "polarity"),
    }
}
