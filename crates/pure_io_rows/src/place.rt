//! A new folder of this process, in which the rows of a folder are held.
use crate::folder::Folder;
use pure_rows::{hold_rows, read_file};
use std::env::Env;
use std::path::PathBuf;
use std::process::ExitCode;
use std::rt::Files;
use std::{env, fs, io};

/// A new folder of this process, in which the program goes on.
fn enter_folder<R: Files + Env + AllocGlobal>(rt: &R, process: u32) -> io::Result<PathBuf> {
    let alloc = rt.alloc();
    let name = format!(in alloc; "pure_io_rows_{process}")?;
    let folder = env::temp_dir(rt)?.join(alloc, name)?;
    fs::create_dir(rt, folder.as_path())?;
    env::set_current_dir(rt, folder.as_path())?;
    Ok(folder)
}

/// Holds each row of the text in the folder, and then removes it.
fn run_in<R: Files + Print + AllocGlobal>(
    rt: &R,
    file: &str,
    text: &[u8],
    folder: &PathBuf,
) -> ExitCode {
    let subject = Folder {
        path: folder.as_path(),
    };
    let code = hold_rows(rt, file, text, &subject);
    match fs::remove_dir_all(rt, folder.as_path()) {
        Ok(()) => code,
        Err(_) => ExitCode::FAILURE,
    }
}

/// Holds each row of the file in a new folder of this process.
pub(crate) fn run_in_new_folder<R: Files + Env + Print + AllocGlobal>(
    rt: &R,
    file: &str,
    process: u32,
) -> ExitCode {
    let Some(text) = read_file(rt, file) else {
        return ExitCode::FAILURE;
    };
    match enter_folder(rt, process) {
        Ok(folder) => run_in(rt, file, &text, &folder),
        Err(_) => {
            let _ = println!(rt; "{file}: no folder can be made");
            ExitCode::FAILURE
        }
    }
}
