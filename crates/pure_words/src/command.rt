//! The subcommands.
ghost use Rattle.std.specs.Prelude.{◌≡◌, IfOk, option_map};
ghost use Rattle.pure_words.specs.Commands as spec;

use crate::cancel;
use crate::given::Given;
use crate::job::{CancelWord, Cancels, Job};
use crate::name::full_name;
use crate::number::number_within;
use crate::table::{Subcommand, Takes, row_of, subcommand_named};
use pure_lex::is_identifier;
use pure_text::Text;
use std::alloc::{AllocError, Global};

/// How many lemmas a generated library may have.
const MOST_LEMMAS: u32 = 4096;

/// The numbers of a generated library.
#[derive(Clone, Copy)]
pub(crate) struct Size {
    start: u32,
    theories: u32,
    lemmas: u32,
}

/// How many workers the values of `--jobs` ask for.
fn workers(values: &[Text]) -> Option<u32>
    ensures { result ≡ spec.workers_of values.now }
{
    match values.len() {
        0 => Some(1),
        1 => number_within(1, 64, values[0].bytes()),
        _ => None,
    }
}

/// Whether `--fail-fast` is given, or None where it is given twice.
fn fail_fast(flags: &[Text]) -> Option<bool>
    ensures { result ≡ spec.fail_fast_of flags.now }
{
    match flags.len() {
        0 => Some(false),
        1 => Some(true),
        _ => None,
    }
}

/// The cancellations that the values of `--cancel` list.
fn cancels(alloc: Global, values: &[Text]) -> Result<Option<Cancels>, AllocError>
    ensures { IfOk result (λ found. found ≡ spec.cancels_of values.now) }
{
    match values.len() {
        0 => Ok(Some(Cancels::make(Vec::new(alloc)))),
        1 => match cancel::cancels(alloc, values[0].bytes())? {
            Some(list) => Ok(Some(Cancels::make(list))),
            None => Ok(None),
        },
        _ => Ok(None),
    }
}

/// The numbers that the arguments of `generate` are.
fn size_in(arguments: &[Text]) -> Option<Size>
    ensures { result ≡ spec.size_of arguments.now }
{
    if arguments.len() != 3 {
        return None;
    }
    let Some(start) = number_within(0, 65536, arguments[0].bytes()) else {
        return None;
    };
    let Some(theories) = number_within(1, 64, arguments[1].bytes()) else {
        return None;
    };
    let Some(lemmas) = number_within(1, 512, arguments[2].bytes()) else {
        return None;
    };
    if theories * lemmas > MOST_LEMMAS {
        return None;
    }
    Some(Size {
        start,
        theories,
        lemmas,
    })
}

/// The qualified name that the only argument is.
fn name_in(alloc: Global, arguments: &[Text]) -> Result<Option<Text>, AllocError>
    ensures { IfOk result (λ found. found ≡ spec.name_given arguments.now) }
{
    match arguments.len() {
        1 => full_name(alloc, arguments[0].bytes()),
        _ => Ok(None),
    }
}

/// The identifier that the only argument is.
fn identifier_in(alloc: Global, arguments: &[Text]) -> Result<Option<Text>, AllocError>
    ensures { IfOk result (λ found. found ≡ spec.identifier_given arguments.now) }
{
    if arguments.len() != 1 || !is_identifier(arguments[0].bytes()) {
        return Ok(None);
    }
    let name = Text::make(alloc, arguments[0].bytes())?;
    Ok(Some(name))
}

/// Whether an option, a flag or an argument is given only where the row has it, and all arguments are there.
fn is_taken(takes: Takes, given: &Given) -> bool
    ensures { result ≡ spec.is_taken takes given.now }
{
    (takes.jobs || given.jobs.list().is_empty())
        && (takes.cancel || given.cancels.list().is_empty())
        && (takes.fail_fast || given.fail_fast.list().is_empty())
        && given.arguments.list().len() == takes.arguments
}

/// The job of `check`.
fn check(alloc: Global, given: &Given) -> Result<Option<Job>, AllocError>
    ensures { IfOk result (λ found. found ≡ spec.job_given Subcommand.Check given.now) }
{
    let Some(workers) = workers(given.jobs.list()) else {
        return Ok(None);
    };
    let Some(fail_fast) = fail_fast(given.fail_fast.list()) else {
        return Ok(None);
    };
    match cancels(alloc, given.cancels.list())? {
        Some(cancels) => Ok(Some(Job::Check {
            workers,
            fail_fast,
            cancels,
        })),
        None => Ok(None),
    }
}

/// The job of `generate`.
fn generate(given: &Given) -> Option<Job>
    ensures { result ≡ spec.job_given Subcommand.Generate given.now }
{
    let Some(workers) = workers(given.jobs.list()) else {
        return None;
    };
    let Some(size) = size_in(given.arguments.list()) else {
        return None;
    };
    Some(Job::Generate {
        workers,
        start: size.start,
        theories: size.theories,
        lemmas: size.lemmas,
    })
}

/// The job of `places`.
fn places(given: &Given) -> Option<Job>
    ensures { result ≡ spec.job_given Subcommand.Places given.now }
{
    let Some(workers) = workers(given.jobs.list()) else {
        return None;
    };
    Some(Job::Places { workers })
}

/// The job of `axioms`.
fn axioms(alloc: Global, given: &Given) -> Result<Option<Job>, AllocError>
    ensures { IfOk result (λ found. found ≡ spec.job_given Subcommand.Axioms given.now) }
{
    let Some(workers) = workers(given.jobs.list()) else {
        return Ok(None);
    };
    match name_in(alloc, given.arguments.list())? {
        Some(name) => Ok(Some(Job::Axioms { workers, name })),
        None => Ok(None),
    }
}

/// The job of `graph`.
fn graph(given: &Given) -> Option<Job>
    ensures { result ≡ spec.job_given Subcommand.Graph given.now }
{
    let Some(workers) = workers(given.jobs.list()) else {
        return None;
    };
    Some(Job::Graph { workers })
}

/// The job of `show`.
fn show(alloc: Global, given: &Given) -> Result<Option<Job>, AllocError>
    ensures { IfOk result (λ found. found ≡ spec.job_given Subcommand.Show given.now) }
{
    match name_in(alloc, given.arguments.list())? {
        Some(name) => Ok(Some(Job::Show { name })),
        None => Ok(None),
    }
}

/// The job of `replay`.
fn replay(alloc: Global, given: &Given) -> Result<Option<Job>, AllocError>
    ensures { IfOk result (λ found. found ≡ spec.job_given Subcommand.Replay given.now) }
{
    match identifier_in(alloc, given.arguments.list())? {
        Some(name) => Ok(Some(Job::Replay { name })),
        None => Ok(None),
    }
}

/// The job of `find`.
fn find(alloc: Global, given: &Given) -> Result<Option<Job>, AllocError>
    ensures { IfOk result (λ found. found ≡ spec.job_given Subcommand.Find given.now) }
{
    match name_in(alloc, given.arguments.list())? {
        Some(name) => Ok(Some(Job::Find { name })),
        None => Ok(None),
    }
}

/// The job of `try`.
fn try_lemma(alloc: Global, given: &Given) -> Result<Option<Job>, AllocError>
    ensures { IfOk result (λ found. found ≡ spec.job_given Subcommand.Try given.now) }
{
    let Some(workers) = workers(given.jobs.list()) else {
        return Ok(None);
    };
    match name_in(alloc, given.arguments.list())? {
        Some(name) => Ok(Some(Job::Try { workers, name })),
        None => Ok(None),
    }
}

/// The job of the subcommand, or None where what is given isn't right for it.
fn job_by(alloc: Global, subcommand: Subcommand, given: &Given) -> Result<Option<Job>, AllocError>
    ensures { IfOk result (λ found. found ≡ spec.job_by given.now subcommand) }
{
    if !is_taken(row_of(subcommand), given) {
        return Ok(None);
    }
    match subcommand {
        Subcommand::Check => check(alloc, given),
        Subcommand::Generate => Ok(generate(given)),
        Subcommand::Places => Ok(places(given)),
        Subcommand::Axioms => axioms(alloc, given),
        Subcommand::Graph => Ok(graph(given)),
        Subcommand::Show => show(alloc, given),
        Subcommand::Replay => replay(alloc, given),
        Subcommand::Find => find(alloc, given),
        Subcommand::Try => try_lemma(alloc, given),
    }
}

/// The job of the subcommand with this name, or None where there is none or what is given isn't right for it.
#[tactic(auto, unfolding(crate::specs::Commands::job_of))]
pub(crate) fn job(alloc: Global, name: &[u8], given: &Given) -> Result<Option<Job>, AllocError>
    ensures { IfOk result (λ found. found ≡ spec.job_of name.now given.now) }
{
    match subcommand_named(name) {
        Some(subcommand) => job_by(alloc, subcommand, given),
        None => Ok(None),
    }
}
