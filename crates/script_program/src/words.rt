ghost use Rattle.std.specs.Prelude.{◌≡◌, map, option_map, string_bytes};
ghost use Rattle.clap.specs.Matches.{found_of, one_text};
ghost use Rattle.clap.specs.Walk.{rows_of};
ghost use Rattle.script_program.specs.CommandLine as spec;
ghost use Rattle.script_program.specs.CommandLine.{IsRead};

use crate::asked::{Asked, Mode, WordsRefused};
use crate::command::command_line;
use clap::ArgMatches;
use clap::error::ErrorKind;
use pg_values::{Kind, Refusal, Value};
use std::alloc::Global;
use value_rules::read_value;

fn mode_named(text: &str) -> Result<Mode, WordsRefused>
    ensures { IsRead (spec.mode_named text.now) result }
{
    match text {
        "run" => Ok(Mode::Run),
        "check" => Ok(Mode::Check),
        "gen" => Ok(Mode::Gen),
        _ => Err(WordsRefused::Usage),
    }
}

fn mode_in(text: Option<&str>) -> Result<Mode, WordsRefused>
    ensures { IsRead (spec.mode_in (option_map (λ s. s.now) text.entry)) result }
{
    match text {
        Some(text) => mode_named(text),
        None => Ok(Mode::Run),
    }
}

fn day_named(alloc: Global, text: &str) -> Result<i32, WordsRefused>
    ensures { IsRead (spec.day_named text.now) result }
{
    match read_value(alloc, Kind::Day, text.as_bytes()) {
        Ok(Value::Day(day)) => Ok(day),
        Ok(_) | Err(Refusal::Sql(_)) => Err(WordsRefused::Usage),
        Err(Refusal::NoMemory) => Err(WordsRefused::NoMemory),
    }
}

fn day_in(alloc: Global, text: Option<&str>) -> Result<Option<i32>, WordsRefused>
    ensures { IsRead (spec.day_in (option_map (λ s. s.now) text.entry)) result }
{
    match text {
        Some(text) => Ok(Some(day_named(alloc, text)?)),
        None => Ok(None),
    }
}

fn seed_named(text: &str) -> Result<u64, WordsRefused>
    ensures { IsRead (spec.seed_named text.now) result }
{
    match text.parse::<u64>() {
        Ok(seed) => Ok(seed),
        Err(_) => Err(WordsRefused::Usage),
    }
}

fn seed_in(text: Option<&str>) -> Result<u64, WordsRefused>
    ensures { IsRead (spec.seed_in (option_map (λ s. s.now) text.entry)) result }
{
    match text {
        Some(text) => seed_named(text),
        None => Ok(1),
    }
}

fn is_given(matches: &ArgMatches<'_>, flag: &str) -> bool
    ensures { result ≡ spec.flag_in (one_text (found_of matches.now) flag.now) }
{
    matches.get_one::<bool>(flag).unwrap_or(false)
}

fn asked_in(alloc: Global, matches: &ArgMatches<'_>) -> Result<Asked, WordsRefused>
    ensures { IsRead (spec.asked_in (rows_of (found_of matches.now))) result }
{
    let mode = mode_in(matches.get_str("mode"))?;
    let today = day_in(alloc, matches.get_str("today"))?;
    let trail = is_given(matches, "trail");
    let seed = seed_in(matches.get_str("seed"))?;
    Ok(Asked {
        mode,
        today,
        trail,
        seed,
    })
}

/// What the words behind the program's name ask for, or Usage where they ask for nothing.
pub fn read_words(alloc: Global, words: &[String]) -> Result<Asked, WordsRefused>
    ensures { IsRead (spec.asked_by (map string_bytes words.now)) result }
{
    match command_line(alloc)?.try_get_matches_from(words) {
        Ok(matches) => asked_in(alloc, &matches),
        Err(error) if error.kind() == ErrorKind::OutOfMemory => Err(WordsRefused::NoMemory),
        Err(_) => Err(WordsRefused::Usage),
    }
}
