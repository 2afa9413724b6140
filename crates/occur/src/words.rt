//! The words of the command line.
ghost use Rattle.std.specs.Prelude.{[], ◌∷◌, ◌≡◌, ◌≤◌, IfOk, Option, codes, false, option_map};
ghost use Rattle.std.specs.Prelude.{string_bytes, true};
ghost use Rattle.clap.specs.Words.{Text, app_of, fault_of, found_of, matches_of, rows_of, rule_of};
ghost use Rattle.occur.specs.Words.{AsksFor, HasStates, IsChosenBy, Explains, ExplainsAmong};
ghost use Rattle.occur.specs.Words.{occur_app, Reads, form_words, is_no_option, script_file};
ghost use Rattle.occur.specs.Words.{script_rule, states_rule, texts_of};
ghost use Rattle.occur.specs.declared.words.OccurFault.TheVariants.{Memory};

use crate::help::{ABOUT, commands_help};
use clap::error::ErrorKind;
use clap::{Arg, ArgAction, ArgMatches, Command, value_parser};
use grep_cmd::VERSION;
use std::alloc::{AllocError, Global};
use thiserror::Error;

/// What the words ask for.
#[derive(Debug, Drop)]
pub struct ScriptRequest {
    /// How many states are kept for each pattern.
    pub states: usize,
    /// The operand SCRIPT, as it was given.
    pub script: Option<String>,
}

impl ScriptRequest {
    /// The file that has the script. There is none if the script is standard input, that is,
    /// without an operand or with `-` (XBD 12.2, Guideline 13).
    pub fn script_file(&self) -> Option<&str>
        ensures { option_map (λ s. s.now) result
            ≡ script_file (option_map string_bytes self.now.script) }
    {
        match &self.script {
            None => None,
            Some(name) if name.as_str() == "-" => None,
            Some(name) => Some(name.as_str()),
        }
    }
}

/// Why the words ask for nothing.
#[derive(Debug, Drop, Error)]
pub enum OccurFault {
    /// The command refuses the words, or they ask for help or the version.
    #[error("{0}")]
    Words(clap::Error),
    /// Memory ran out.
    #[error("out of memory")]
    Memory,
}

impl From<clap::Error> for OccurFault {
    ghost from_gives = { Explains };

    fn from(error: clap::Error) -> OccurFault {
        match error.kind() {
            ErrorKind::OutOfMemory => OccurFault::Memory,
            _ => OccurFault::Words(error),
        }
    }
}

impl From<AllocError> for OccurFault {
    ghost from_gives = { λ _ fault. fault ≡ Memory };

    fn from(_error: AllocError) -> OccurFault {
        OccurFault::Memory
    }
}

/// The option `--states N`.
fn states_option<'a>(alloc: Global) -> Arg<'a>
    ensures rule { rule_of result ≡ states_rule }
    ensures local { result.global ≡ false }
{
    Arg::new(alloc, "states")
        .long("states")
        .value_name("N")
        .action(ArgAction::Set)
        .value_parser(value_parser!(usize).range(1..=65536))
        .default_value("256")
        .help("Cached states of each pattern, from 1 to 65536: more take memory and save time")
}

/// The operand SCRIPT.
fn script_operand<'a>(alloc: Global) -> Arg<'a>
    ensures rule { rule_of result ≡ script_rule }
    ensures local { result.global ≡ false }
{
    Arg::new(alloc, "script")
        .value_name("SCRIPT")
        .action(ArgAction::Set)
        .help("The file that has the script; without it, standard input")
}

/// The command with its version, its option and its operand.
fn occur_command<'a>(alloc: Global) -> Result<Command<'a>, AllocError>
    ensures { IfOk result (λ command. app_of command ≡ occur_app) }
{
    Command::new(alloc, "occur")
        .version(VERSION)
        .about(ABOUT)
        .after_help(commands_help())
        .arg(states_option(alloc))?
        .arg(script_operand(alloc))
}

/// A copy of the text, if there is one.
fn owned(alloc: Global, text: Option<&str>) -> Result<Option<String>, AllocError>
    ensures { IfOk result
        (λ copy. option_map string_bytes copy ≡ option_map (λ s. s.now) text.entry) }
{
    match text {
        Some(text) => Ok(Some(String::from_str(alloc, text)?)),
        None => Ok(None),
    }
}

/// The request, by what was found for the option and the operand.
fn request_of(alloc: Global, matches: &ArgMatches<'_>) -> Result<ScriptRequest, AllocError>
    requires { HasStates (found_of matches.now) }
    ensures states { IfOk result (λ request. (1 ≤ request.states) × (request.states ≤ 65536)) }
    ensures found { IfOk result (IsChosenBy (rows_of (found_of matches.now))) }
{
    let states = matches.get_one::<usize>("states").unwrap();
    let script = owned(alloc, matches.get_str("script"))?;
    Ok(ScriptRequest { states, script })
}

/// Parses the words with clap.
fn parse_words(alloc: Global, words: &[String]) -> Result<ScriptRequest, OccurFault>
    ensures states { IfOk result (λ request. (1 ≤ request.states) × (request.states ≤ 65536)) }
    ensures chosen { IfOk result (IsChosenBy (matches_of occur_app (texts_of words.now))) }
    ensures faults { ExplainsAmong (fault_of occur_app (texts_of words.now)) result }
{
    let matches = occur_command(alloc)?.try_get_matches_from(words)?;
    Ok(request_of(alloc, &matches)?)
}

/// Parses the words of the process, the first of which is the program's name.
pub fn occur_words(alloc: Global, words: &[String]) -> Result<ScriptRequest, OccurFault>
    ensures states { IfOk result (λ request. (1 ≤ request.states) × (request.states ≤ 65536)) }
    ensures forms { (name : Text) (number script : Option Text)
        → texts_of words.now ≡ form_words name number script
        → is_no_option number ≡ true → is_no_option script ≡ true → Reads number script result }
    ensures help { (name : Text) → texts_of words.now ≡ name ∷ codes "--help" ∷ []
        → AsksFor ErrorKind.DisplayHelp result }
    ensures version { (name : Text) → texts_of words.now ≡ name ∷ codes "--version" ∷ []
        → AsksFor ErrorKind.DisplayVersion result }

    // For any words: the request and faults that clap defines for this command.
    ensures chosen { IfOk result (IsChosenBy (matches_of occur_app (texts_of words.now))) }
    ensures faults { ExplainsAmong (fault_of occur_app (texts_of words.now)) result }
{
    parse_words(alloc, words)
}
