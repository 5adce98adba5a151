//! Groups over the kernel: a theory declared by calls, a theorem drawn by inferences, propositions that a search decides.
#![tactic(auto)]

mod inverse;
mod lines;
mod propositions;
mod simplified;
mod stop;
mod theory;

use crate::inverse::right_inverse;
use crate::lines::print_line;
use crate::propositions::{decide_all, decide_goal};
use crate::simplified::simplified;
use crate::stop::Stop;
use crate::theory::{group_names, group_theory};
use pure_kernel::{NamesByBase, Theory, Thm};
use std::alloc::Global;
use std::mem;
use std::process::ExitCode;

/// Decides the theorem once more in Pure, where it isn't certified.
fn decide_in_pure<R: Print>(
    rt: &R,
    alloc: Global,
    names: &NamesByBase,
    th: &Thm,
) -> Result<(), Stop> {
    let pure = Theory::pure(alloc)?;
    let done = decide_goal(rt, alloc, &pure, names, "right_inverse in Pure", &th.prop);
    mem::forget(pure);
    done
}

/// Prints the theorem on inverses, and decides it once more in Pure.
fn show_inverse<R: Print>(
    rt: &R,
    alloc: Global,
    names: &NamesByBase,
    th: &Thm,
) -> Result<(), Stop> {
    print_line(rt, alloc, names, "right_inverse", &th.prop)?;
    decide_in_pure(rt, alloc, names, th)
}

/// Proves the theorem on inverses, and prints it.
fn prove_inverse<R: Print>(
    rt: &R,
    alloc: Global,
    thy: &Theory,
    names: &NamesByBase,
) -> Result<(), Stop> {
    let th = right_inverse(alloc, thy, names)?;
    show_inverse(rt, alloc, names, &th)
}

/// Simplifies a function, and prints the equation.
fn simplify<R: Print>(
    rt: &R,
    alloc: Global,
    thy: &Theory,
    names: &NamesByBase,
) -> Result<(), Stop> {
    let th = simplified(alloc, thy, names)?;
    print_line(rt, alloc, names, "simplified", &th.prop)
}

/// Proves and prints in the theory of groups.
fn run_over<R: Print>(
    rt: &R,
    alloc: Global,
    thy: &Theory,
    names: &NamesByBase,
) -> Result<(), Stop> {
    prove_inverse(rt, alloc, thy, names)?;
    simplify(rt, alloc, thy, names)?;
    decide_all(rt, alloc, thy, names)
}

/// Declares the theory, and goes on in it.
fn run_with<R: Print>(rt: &R, alloc: Global, names: &NamesByBase) -> Result<(), Stop> {
    let thy = group_theory(alloc, names)?;
    let done = run_over(rt, alloc, &thy, names);
    mem::forget(thy);
    done
}

/// Makes the table of names, and goes on with it.
fn run<R: Print>(rt: &R, alloc: Global) -> Result<(), Stop> {
    let names = group_names(alloc)?;
    let done = run_with(rt, alloc, &names);
    mem::forget(names);
    done
}

fn main(rt: HostRuntime) -> ExitCode {
    match run(&rt, rt.alloc()) {
        Ok(()) => ExitCode::SUCCESS,
        Err(_stop) => ExitCode::FAILURE,
    }
}
