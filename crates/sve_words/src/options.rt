//! What the words ask for, and the words behind `run`.
ghost use Rattle.std.specs.Prelude.{◌≡◌, false, map, string_bytes, option_map, IfOk};
ghost use Rattle.std.specs.List.{list_any};
ghost use Rattle.clap.specs.Words.{app_of, rule_of};
ghost use Rattle.sve_words.specs.Command.{flag_rule, options_app};
ghost use Rattle.sve_words.specs.Words.{with_budget, asked, said_by, is_short, is_foreign, says, is_said_twice, options, generated, spoken, IsInLimit};

use crate::digits::{MAX_BUDGET, MAX_MADE, number};
use crate::request::{Options, Spoken};
use clap::error::ErrorKind;
use clap::{Arg, ArgAction, Command};
use std::alloc::{AllocError, Global};

/// What the words ask for: `run`, and behind it `--budget N` or `--budget=N`, `--serial` and `--lint`, in any order and each
/// at most once; or `make N` with a number of modules; or nothing. The program's name is none of the words.
///
/// # Errors
/// Only for want of memory.
pub fn spoken(alloc: Global, words: &[String]) -> Result<Spoken, AllocError>
    ensures said { IfOk result (λ s. s ≡ spoken (map string_bytes words.now)) }
    ensures in_limit { IfOk result IsInLimit }
{
    match words {
        [word, rest @ ..] => {
            if word.as_str() == "run" {
                options(alloc, rest)
            } else if word.as_str() == "make" {
                Ok(generated(rest))
            } else {
                Ok(Spoken::Usage)
            }
        }
        [] => Ok(Spoken::Usage),
    }
}

/// What the words behind `make` ask for: they are one, a number of modules.
fn generated(words: &[String]) -> Spoken
    ensures said { result ≡ generated (map string_bytes words.now) }
    ensures in_limit { IsInLimit result }
{
    let [word] = words else {
        return Spoken::Usage;
    };
    let Some(n) = number(word, MAX_MADE) else {
        return Spoken::Usage;
    };
    Spoken::Make(n)
}

/// What the words behind `run` ask for.
fn options(alloc: Global, words: &[String]) -> Result<Spoken, AllocError>
    ensures said { IfOk result (λ s. s ≡ options (map string_bytes words.now)) }
    ensures in_limit { IfOk result IsInLimit }
{
    if has_foreign(words)
        || is_said_twice("--budget", "--budget=", words)
        || is_said_twice("--serial", "--serial=", words)
        || is_said_twice("--lint", "--lint=", words)
    {
        return Ok(Spoken::Usage);
    }
    read(alloc, words)
}

/// What the words ask for as `clap` reads them, where no foreign word is among them.
fn read(alloc: Global, words: &[String]) -> Result<Spoken, AllocError>
    requires { list_any is_foreign (map string_bytes words.now) ≡ false }
    ensures said { IfOk result (λ s. s ≡ asked (said_by (map string_bytes words.now))) }
    ensures in_limit { IfOk result IsInLimit }
{
    let command = command(alloc)?;
    match command.try_get_matches_from(words) {
        Ok(matches) => {
            let flags = Options {
                budget: None,
                serial: matches.get_flag("serial"),
                lint: matches.get_flag("lint"),
            };
            Ok(with_budget(matches.get_str("budget"), flags))
        }
        Err(error) => match error.kind() {
            ErrorKind::OutOfMemory => Err(AllocError),
            _ => Ok(Spoken::Usage),
        },
    }
}

/// The run with these options, and with this budget where one is said and is a number of steps.
fn with_budget(budget: Option<&str>, options: Options) -> Spoken
    ensures said { result ≡ with_budget (option_map (λ text. text.now) budget.entry) options }
    ensures in_limit { IsInLimit result }
{
    let Some(text) = budget else {
        return Spoken::Run(options);
    };
    match number(text, MAX_BUDGET) {
        Some(n) => Spoken::Run(Options {
            budget: Some(n),
            ..options
        }),
        None => Spoken::Usage,
    }
}

/// An option without a value.
fn flag<'a>(alloc: Global, name: &'a str) -> Arg<'a>
    ensures rule { rule_of result ≡ flag_rule name.now }
    ensures local { result.global ≡ false }
{
    Arg::new(alloc, name).long(name).action(ArgAction::SetTrue)
}

/// The simple command of the options. A use of an option undoes an earlier one, since it is said at most once.
fn command<'a>(alloc: Global) -> Result<Command<'a>, AllocError>
    ensures { IfOk result (λ command. app_of command ≡ options_app) }
{
    let budget = Arg::new(alloc, "budget")
        .long("budget")
        .action(ArgAction::Set);
    let command = Command::new(alloc, "run")
        .no_binary_name(true)
        .disable_help_flag(true)
        .args_override_self(true);
    command
        .arg(budget)?
        .arg(flag(alloc, "serial"))?
        .arg(flag(alloc, "lint"))
}

fn has_foreign(words: &[String]) -> bool
    ensures { result ≡ list_any is_foreign (map string_bytes words.now) }
{
    for word in words {
        if is_foreign(word) {
            return true;
        }
    }
    false
}

/// Whether the word is `--`, or one hyphen with something else behind it.
fn is_foreign(word: &str) -> bool
    ensures { result ≡ is_foreign word.now }
{
    word == "--" || is_short(word.as_bytes())
}

fn is_short(word: &[u8]) -> bool
    ensures { result ≡ is_short word.now }
{
    match word {
        [first, second, ..] => *first == b'-' && *second != b'-',
        _ => false,
    }
}

/// Whether more than one word says the option that is written so: without a value, and with what stands in front of one.
fn is_said_twice(plain: &str, valued: &str, words: &[String]) -> bool
    ensures { result ≡ is_said_twice plain.now valued.now (map string_bytes words.now) }
{
    let mut count = 0usize;
    for word in words {
        if says(plain, valued, word) {
            count += 1;
        }
    }
    count > 1
}

/// Whether the word says the option that is written so.
fn says(plain: &str, valued: &str, word: &str) -> bool
    ensures { result ≡ says plain.now valued.now word.now }
{
    word == plain || word.as_bytes().starts_with(valued.as_bytes())
}
