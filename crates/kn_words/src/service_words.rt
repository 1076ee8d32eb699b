//! The words of a service.
ghost use Rattle.std.specs.Prelude.{◌≡◌, ◌≢◌, ◌≤◌, ℕ, Some, true, false, All, IfOk, OnErr, IfSome, IfNone};
ghost use Rattle.std.specs.Prelude.{codes, map, slice_get, option_and_then};
ghost use Rattle.std.specs.Bool.{OnTrue, OnFalse};
ghost use Rattle.std.specs.Str.{IsUtf8};
ghost use Rattle.clap.specs.Words.{app_of, rule_of, first_value, found_of};
ghost use Rattle.kn_base.specs.Decimal.{decimal_of};
ghost use Rattle.kn_words.specs.Orders.{Order};
ghost use Rattle.kn_words.specs.Commands.{serve_app, address_rule, policy_rule, keys_rule, workers_rule};
ghost use Rattle.kn_words.specs.Commands.{connections_rule, AreValuesOf, ServeFor, IsNo};

use crate::files::AskFiles;
use crate::service::Service;
use clap::{Arg, ArgMatches, Command};
use kn_base::limits::{CONNECTIONS, WORKERS};
use kn_base::{NoMemory, Octets, decimal};
use std::alloc::{AllocError, Global};
use std::str;

/// Whether the first word is `serve`.
pub fn asks_to_serve(words: &[Octets]) -> bool
    ensures yes { result ≡ true → slice_get words.now 0 ≡ Some (codes "serve") }
    ensures no { result ≡ false → slice_get words.now 0 ≢ Some (codes "serve") }
{
    !words.is_empty() && words[0].as_slice() == b"serve".as_slice()
}

/// Words as texts; None where one of them isn't UTF-8.
pub fn texts_of<'a>(alloc: Global, words: &'a [Octets]) -> Result<Option<Vec<&'a str>>, NoMemory>
    ensures texts { IfOk result (λ texts. IfSome texts (λ t.
        (map (λ s. s.now) t.items ≡ words.now) × All IsUtf8 words.now)) }
    ensures none { IfOk result (λ texts. IfNone texts (¬ All IsUtf8 words.now)) }
    ensures lacks { OnErr result (All IsUtf8 words.now) }
{
    if !are_texts(words) {
        return Ok(None);
    }
    let mut texts = Vec::new(alloc);
    for word in words {
        match str::from_utf8(word.as_slice()) {
            Ok(text) => match texts.push(text) {
                Ok(()) => {}
                Err(_) => return Err(NoMemory),
            },
            Err(_) => return Ok(None),
        }
    }
    Ok(Some(texts))
}

/// Whether all words are UTF-8.
fn are_texts(words: &[Octets]) -> bool
    ensures yes { OnTrue result (All IsUtf8 words.now) }
    ensures no { OnFalse result (¬ All IsUtf8 words.now) }
{
    for word in words {
        match str::from_utf8(word.as_slice()) {
            Ok(_) => {}
            Err(_) => return false,
        }
    }
    true
}

/// The service that words ask for; None where they ask for none. The first word stands for the program's name.
pub fn service_of<'a>(alloc: Global, words: &'a [&'a str]) -> Result<Option<Service<'a>>, NoMemory>
    requires serve { slice_get (map (λ w. w.now) words.now) 0 ≡ Some (codes "serve") }
    requires texts { All IsUtf8 (map (λ w. w.now) words.now) }
    ensures some { IfOk result (λ service. IfSome service (λ s. ServeFor (map (λ w. w.now) words.now) s)) }
    ensures none { IfOk result (λ service. IfNone service (IsNo ServeFor (map (λ w. w.now) words.now))) }
{
    let command = match serve_command(alloc) {
        Ok(command) => command,
        Err(_) => return Err(NoMemory),
    };
    match command.try_get_matches_from(words) {
        Ok(matches) => Ok(service_in(&matches)),
        Err(error) if error.kind() == clap::error::ErrorKind::OutOfMemory => Err(NoMemory),
        Err(_) => Ok(None),
    }
}

/// The command that reads the words.
fn serve_command<'a>(alloc: Global) -> Result<Command<'a>, AllocError>
    ensures { IfOk result (λ command. app_of command ≡ serve_app) }
{
    let command = Command::new(alloc, "serve");
    let with_address = command.arg(address_arg(alloc))?;
    let with_policy = with_address.arg(policy_arg(alloc))?;
    let with_keys = with_policy.arg(keys_arg(alloc))?;
    let with_workers = with_keys.arg(workers_arg(alloc))?;
    with_workers.arg(connections_arg(alloc))
}

fn address_arg<'a>(alloc: Global) -> Arg<'a>
    ensures rule { rule_of result ≡ address_rule }
    ensures local { result.global ≡ false }
{
    Arg::new(alloc, "ADDR").required(true)
}

fn policy_arg<'a>(alloc: Global) -> Arg<'a>
    ensures rule { rule_of result ≡ policy_rule }
    ensures local { result.global ≡ false }
{
    Arg::new(alloc, "policy").long("policy").required(true)
}

fn keys_arg<'a>(alloc: Global) -> Arg<'a>
    ensures rule { rule_of result ≡ keys_rule }
    ensures local { result.global ≡ false }
{
    Arg::new(alloc, "keys").long("keys")
}

fn workers_arg<'a>(alloc: Global) -> Arg<'a>
    ensures rule { rule_of result ≡ workers_rule }
    ensures local { result.global ≡ false }
{
    Arg::new(alloc, "workers")
        .long("workers")
        .default_value("4")
}

fn connections_arg<'a>(alloc: Global) -> Arg<'a>
    ensures rule { rule_of result ≡ connections_rule }
    ensures local { result.global ≡ false }
{
    Arg::new(alloc, "connections")
        .long("connections")
        .required(true)
}

/// The service of what was read; None where a number is none or isn't in its range.
fn service_in<'a>(matches: &ArgMatches<'a>) -> Option<Service<'a>>
    ensures some { IfSome result (λ service. AreValuesOf (first_value (found_of matches.now)) service) }
    ensures none { IfNone result ((order : Order) → ¬ AreValuesOf (first_value (found_of matches.now)) order) }
{
    let address = matches.get_str("ADDR")?;
    let policy = matches.get_str("policy")?;
    let keys = match matches.get_str("keys") {
        Some(name) => Some(name.as_bytes()),
        None => None,
    };
    Some(Service {
        files: AskFiles {
            policy: policy.as_bytes(),
            keys,
        },
        address: address.as_bytes(),
        workers: number_in(matches, "workers", WORKERS)?,
        connections: number_in(matches, "connections", CONNECTIONS)?,
    })
}

/// The number of an option, from 1 to this one.
fn number_in(matches: &ArgMatches<'_>, id: &str, most: u32) -> Option<u32>
    ensures some { IfSome result (λ n. (option_and_then decimal_of (first_value (found_of matches.now) id.now) ≡ Some n)
        × (1 ≤ n) × (n ≤ most)) }
    ensures none { IfNone result ((n : ℕ)
        → option_and_then decimal_of (first_value (found_of matches.now) id.now) ≡ Some n → 1 ≤ n → ¬ (n ≤ most)) }
{
    let number = decimal(matches.get_str(id)?.as_bytes())?;
    if number < 1 || number > most {
        return None;
    }
    Some(number)
}
