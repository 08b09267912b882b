//! What the words after the program's name ask for.
ghost use Rattle.std.specs.Prelude.{◌≡◌, IfErr, IfOk, Some, [], map, false};
ghost use Rattle.std.specs.String.{string_bytes};
ghost use Rattle.clap.specs.Words.{app_of, rule_of};
ghost use Rattle.trace_replay.specs.Words.{IsRefusal, LoadIsInRange, asked_by, asked_of, number_rule, refusal_of};
ghost use Rattle.trace_replay.specs.Words.{replay_command};
ghost use Rattle.trace_replay.specs.declared.words.Asked.TheVariants.{Replay};

use crate::status::ReplayStatus;
use clap::builder::ValueParser;
use clap::error::ErrorKind;
use clap::{Arg, ArgAction, Command, value_parser};
use std::alloc::{AllocError, Global};

/// The most steps of a load.
const MOST_STEPS: i64 = 200_000;

/// What the words ask for.
#[derive(Clone, Copy, Debug, PartialEq, Eq)]
pub(crate) enum Asked {
    /// The replay of a trace.
    Replay,
    /// The load of this seed, with so many steps.
    Load { seed: u32, steps: u32 },
}

/// What the words after the program's name ask for: a replay where there are none, and a load where
/// `--load` and `--steps` both stand with a number in their range, in any order. Other words are
/// `Usage`, `--help` included, and else the only failure is `OutOfMemory`.
pub(crate) fn asked_for(alloc: Global, words: &[String]) -> Result<Asked, ReplayStatus>
    ensures ok { IfOk result (λ a. asked_by (map string_bytes words.now) ≡ Some a) }
    ensures err { IfErr result (IsRefusal (asked_by (map string_bytes words.now))) }
    ensures range { IfOk result LoadIsInRange }
    ensures no_words { asked_by [] ≡ Some Replay }
{
    let command = match replay_command(alloc) {
        Ok(command) => command,
        Err(_) => return Err(ReplayStatus::OutOfMemory),
    };
    let matches = match command.try_get_matches_from(words) {
        Ok(matches) => matches,
        Err(error) => return Err(refusal(error.kind())),
    };
    let seed = matches.get_one::<u32>("load");
    let steps = matches.get_one::<u32>("steps");
    chosen(seed, steps)
}

/// The command: two options with one number each, and no program's name in front of the words.
fn replay_command<'a>(alloc: Global) -> Result<Command<'a>, AllocError>
    ensures { IfOk result (λ c. app_of c ≡ replay_command) }
{
    let seed = value_parser!(u32);
    let steps = value_parser!(u32).range(1..=MOST_STEPS);
    let load = number_option(alloc, "load", seed);
    let steps = number_option(alloc, "steps", steps);
    let command = Command::new(alloc, "clutch_replay").no_binary_name(true);
    command.arg(load)?.arg(steps)
}

/// The option `--name`, with one value that this parser takes.
fn number_option<'a>(alloc: Global, name: &'a str, parser: ValueParser<'a>) -> Arg<'a>
    ensures rule { rule_of result ≡ number_rule name.entry.now parser.entry }
    ensures own { result.global ≡ false }
{
    Arg::new(alloc, name)
        .long(name)
        .action(ArgAction::Set)
        .value_parser(parser)
}

/// The status of words that the command refuses for this reason.
fn refusal(kind: ErrorKind) -> ReplayStatus
    ensures { result ≡ refusal_of kind }
{
    match kind {
        ErrorKind::OutOfMemory => ReplayStatus::OutOfMemory,
        _ => ReplayStatus::Usage,
    }
}

/// What a seed and a number of steps ask for: both or neither must be there, else it is `Usage`.
fn chosen(seed: Option<u32>, steps: Option<u32>) -> Result<Asked, ReplayStatus>
    ensures ok { IfOk result (λ a. asked_of seed steps ≡ Some a) }
    ensures err { IfErr result (IsRefusal (asked_of seed steps)) }
{
    match (seed, steps) {
        (None, None) => Ok(Asked::Replay),
        (Some(seed), Some(steps)) => Ok(Asked::Load { seed, steps }),
        _ => Err(ReplayStatus::Usage),
    }
}

#[cfg(test)]
mod tests {
    use super::{Asked, asked_for};
    use crate::status::ReplayStatus;
    use std::alloc::{AllocError, Global};
    use std::test::Fail;

    /// What the words of a line ask for.
    fn answer(alloc: Global, line: &str) -> Result<Result<Asked, ReplayStatus>, AllocError> {
        let mut words = Vec::new(alloc);
        for word in line.split_whitespace() {
            words.push(String::from_str(alloc, word)?)?;
        }
        Ok(asked_for(alloc, words.as_slice()))
    }

    #[test]
    fn replays_at_no_words(rt: HostRuntime) -> Result<(), Fail> {
        assert!(rt; answer(rt.alloc(), "")? == Ok(Asked::Replay));
        Ok(())
    }

    #[test]
    fn loads_at_two_numbers(rt: HostRuntime) -> Result<(), Fail> {
        let alloc = rt.alloc();
        let small = Asked::Load {
            seed: 7,
            steps: 200,
        };
        assert!(rt; answer(alloc, "--load 7 --steps 200")? == Ok(small));
        let wide = Asked::Load {
            seed: 4_294_967_295,
            steps: 1,
        };
        assert!(rt; answer(alloc, "--steps=1 --load=4294967295")? == Ok(wide));
        Ok(())
    }

    #[test]
    fn refuses_other_words(rt: HostRuntime) -> Result<(), Fail> {
        let alloc = rt.alloc();
        for line in [
            "x",
            "--load 7",
            "--steps 7",
            "--load 4294967296 --steps 1",
            "--load 7 --steps 0",
            "--load 7 --steps 200001",
            "--help",
            "--load 7 --load 8 --steps 1",
            "--steps 1 --load",
            "-- x",
        ] {
            let found = answer(alloc, line)?;
            assert!(rt; found == Err(ReplayStatus::Usage), "at {line}");
        }
        Ok(())
    }
}
