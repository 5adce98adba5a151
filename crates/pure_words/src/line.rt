//! The command line as `clap` reads it.
ghost use Rattle.std.specs.Prelude.{◌≡◌, ◌∷◌, ◌++◌, List, ℕ, IfOk, IfErr, OnOk, Some, false, map, option_map};
ghost use Rattle.clap.specs.Words.{app_of, first_of, found_of, kind_of, rows_of, rule_of};
ghost use Rattle.clap.specs.declared.builder.command.Command.TheViews.{out-Command as fields_of};
ghost use Rattle.pure_words.specs.Line as spec;
ghost use Rattle.pure_words.specs.Words.{IsCommand};

use crate::command;
use crate::given::{Given, Values};
use crate::job::Job;
use crate::table::{Subcommand, Takes, name_of, row_of};
use clap::error::ErrorKind;
use clap::{Arg, ArgAction, ArgMatches, Command, Error};
use std::alloc::{AllocError, Global};

/// Adds an argument where it is taken.
fn with_arg<'a>(
    command: Command<'a>,
    is_taken: bool,
    arg: Arg<'a>,
) -> Result<Command<'a>, AllocError>
    ensures app { arg.entry.global ≡ false
        → IfOk result (λ c. app_of c ≡ spec.with_rule_if is_taken (rule_of arg.entry) (app_of command.entry)) }
    ensures globals { arg.entry.global ≡ false → IfOk result (λ c. (fields_of c).has_globals ≡ (fields_of command.entry).has_globals) }
{
    if is_taken {
        return command.arg(arg);
    }
    Ok(command)
}

/// `-j`, `--jobs`.
fn jobs<'a>(alloc: Global) -> Arg<'a>
    ensures rule { rule_of result ≡ spec.jobs_rule }
    ensures here { result.global ≡ false }
{
    Arg::new(alloc, "jobs").short('j').long("jobs")
}

/// `--cancel`.
fn cancel<'a>(alloc: Global) -> Arg<'a>
    ensures rule { rule_of result ≡ spec.cancel_rule }
    ensures here { result.global ≡ false }
{
    Arg::new(alloc, "cancel").long("cancel")
}

/// `--fail-fast`.
fn fail_fast<'a>(alloc: Global) -> Arg<'a>
    ensures rule { rule_of result ≡ spec.fail_fast_rule }
    ensures here { result.global ≡ false }
{
    Arg::new(alloc, "fail-fast")
        .long("fail-fast")
        .action(ArgAction::SetTrue)
}

/// An argument that must be there.
fn argument<'a>(alloc: Global, id: &'a str) -> Arg<'a>
    ensures rule { rule_of result ≡ spec.argument_rule id.entry.now }
    ensures here { result.global ≡ false }
{
    Arg::new(alloc, id).required(true)
}

/// Adds the options and flags of a row.
fn with_options<'a>(
    alloc: Global,
    command: Command<'a>,
    row: Takes,
) -> Result<Command<'a>, AllocError>
    ensures app { IfOk result (λ c. app_of c ≡ spec.with_options row (app_of command.entry)) }
    ensures globals { IfOk result (λ c. (fields_of c).has_globals ≡ (fields_of command.entry).has_globals) }
{
    let command = with_arg(command, row.jobs, jobs(alloc))?;
    let command = with_arg(command, row.cancel, cancel(alloc))?;
    let command = with_arg(command, row.fail_fast, fail_fast(alloc))?;
    Ok(command)
}

/// Adds as many arguments.
fn with_arguments<'a>(
    alloc: Global,
    command: Command<'a>,
    count: usize,
) -> Result<Command<'a>, AllocError>
    ensures app { IfOk result (λ c. app_of c ≡ spec.with_arguments count (app_of command.entry)) }
    ensures globals { IfOk result (λ c. (fields_of c).has_globals ≡ (fields_of command.entry).has_globals) }
{
    let command = with_arg(command, count > 0, argument(alloc, "first"))?;
    let command = with_arg(command, count > 1, argument(alloc, "second"))?;
    let command = with_arg(command, count > 2, argument(alloc, "third"))?;
    Ok(command)
}

/// A subcommand with all that it takes.
fn made<'a>(alloc: Global, subcommand: Subcommand) -> Result<Command<'a>, AllocError>
    ensures app { IfOk result (λ c. app_of c ≡ spec.subcommand_app subcommand) }
    ensures globals { IfOk result (λ c. (fields_of c).has_globals ≡ false) }
{
    let row = row_of(subcommand);
    let command = with_options(alloc, Command::new(alloc, name_of(subcommand)), row)?;
    let command = with_arguments(alloc, command, row.arguments)?;
    Ok(command)
}

/// Adds a subcommand.
fn with_subcommand<'a>(
    alloc: Global,
    command: Command<'a>,
    subcommand: Subcommand,
) -> Result<Command<'a>, AllocError>
    ensures { IfOk result (λ c. app_of c ≡ spec.with_made (app_of command.entry) subcommand) }
{
    let inner = made(alloc, subcommand)?;
    let command = command.subcommand(inner)?;
    Ok(command)
}

/// A command without help, whose words begin with the subcommand.
fn bare<'a>(alloc: Global) -> Command<'a>
    ensures { app_of result ≡ spec.bare_app }
{
    Command::new(alloc, "pure")
        .no_binary_name(true)
        .disable_help_flag(true)
        .disable_help_subcommand(true)
}

/// The whole command.
fn line<'a>(alloc: Global) -> Result<Command<'a>, AllocError>
    ensures { IfOk result (λ c. app_of c ≡ spec.line_app) }
{
    let command = with_subcommand(alloc, bare(alloc), Subcommand::Check)?;
    let command = with_subcommand(alloc, command, Subcommand::Generate)?;
    let command = with_subcommand(alloc, command, Subcommand::Places)?;
    let command = with_subcommand(alloc, command, Subcommand::Axioms)?;
    let command = with_subcommand(alloc, command, Subcommand::Graph)?;
    let command = with_subcommand(alloc, command, Subcommand::Show)?;
    let command = with_subcommand(alloc, command, Subcommand::Replay)?;
    let command = with_subcommand(alloc, command, Subcommand::Find)?;
    let command = with_subcommand(alloc, command, Subcommand::Try)?;
    Ok(command)
}

/// What `clap` finds among the words. Of words that are a command's it finds the job; an error comes of these only for want of memory.
pub(crate) fn matches_of<'a, 'b>(
    alloc: Global,
    words: &'a [&'b str],
) -> Result<ArgMatches<'a>, Error>
    ensures ok { (name : List ℕ) (rest : List (List ℕ)) (job : _) → map (λ s. s.now) words.entry.now ≡ name ∷ rest → IsCommand name rest job
        → IfOk result (λ m. spec.FindsJob name job m) }
    ensures memory { (name : List ℕ) (rest : List (List ℕ)) (job : _) → map (λ s. s.now) words.entry.now ≡ name ∷ rest → IsCommand name rest job
        → IfErr result (λ e. kind_of e ≡ ErrorKind.OutOfMemory) }
{
    let command = line(alloc)?;
    command.try_get_matches_from(words)
}

/// Adds the value of an option or argument, where it has one.
fn add_found(
    alloc: Global,
    values: &mut Values,
    matches: &ArgMatches<'_>,
    id: &str,
) -> Result<(), AllocError>
    ensures { OnOk result (values.new ≡ values.old ++ spec.listed (first_of id.now (rows_of (found_of matches.now)))) }
{
    if let Some(value) = matches.get_str(id) {
        values.add(alloc, value.as_bytes())?;
    }
    Ok(())
}

/// The value of an option, where it has one.
fn found(alloc: Global, matches: &ArgMatches<'_>, id: &str) -> Result<Values, AllocError>
    ensures { IfOk result (λ vs. vs ≡ spec.listed (first_of id.now (rows_of (found_of matches.now)))) }
{
    let mut values = Values::none(alloc);
    add_found(alloc, &mut values, matches, id)?;
    Ok(values)
}

/// The flag, where this value of it is `true`.
fn flag_values(alloc: Global, value: &str) -> Result<Values, AllocError>
    ensures { IfOk result (λ vs. vs ≡ spec.flag_of (Some value.now)) }
{
    if value == "true" {
        let mut values = Values::none(alloc);
        values.add(alloc, b"--fail-fast")?;
        return Ok(values);
    }
    Ok(Values::none(alloc))
}

/// The flag, where it is on.
fn flag(alloc: Global, matches: &ArgMatches<'_>) -> Result<Values, AllocError>
    ensures { IfOk result (λ vs. vs ≡ spec.flag_in (rows_of (found_of matches.now))) }
{
    match matches.get_str("fail-fast") {
        Some(value) => flag_values(alloc, value),
        None => Ok(Values::none(alloc)),
    }
}

/// The arguments.
fn arguments(alloc: Global, matches: &ArgMatches<'_>) -> Result<Values, AllocError>
    ensures { IfOk result (λ vs. vs ≡ spec.arguments_in (rows_of (found_of matches.now))) }
{
    let mut values = found(alloc, matches, "first")?;
    add_found(alloc, &mut values, matches, "second")?;
    add_found(alloc, &mut values, matches, "third")?;
    Ok(values)
}

/// What the matches of a subcommand give.
fn given_in(alloc: Global, matches: &ArgMatches<'_>) -> Result<Given, AllocError>
    ensures { IfOk result (λ g. g ≡ spec.given_of (rows_of (found_of matches.now))) }
{
    let jobs = found(alloc, matches, "jobs")?;
    let cancels = found(alloc, matches, "cancel")?;
    let fail_fast = flag(alloc, matches)?;
    let arguments = arguments(alloc, matches)?;
    Ok(Given {
        jobs,
        cancels,
        fail_fast,
        arguments,
    })
}

/// The job that the matches give.
pub(crate) fn job_in(alloc: Global, matches: &ArgMatches<'_>) -> Result<Option<Job>, AllocError>
    ensures { (name : List ℕ) (job : _) → spec.FindsJob name job matches.now → IfOk result (λ found. found ≡ Some job) }
{
    match matches.subcommand() {
        Some((name, inner)) => {
            let given = given_in(alloc, inner)?;
            command::job(alloc, name.as_bytes(), &given)
        }
        None => Ok(None),
    }
}
