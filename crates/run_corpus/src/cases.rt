//! The cases: their names, and what their files say.

use crate::outcomes::Expected;
use std::rt::Files;
use std::{fs, io};

/// The paths, without `.grain`, of the listings that lie in the folders of this folder, in order.
pub fn names_below<R: Files + AllocGlobal + Clone + Drop>(
    rt: &R,
    corpus: &str,
) -> io::Result<Vec<String>> {
    let mut names = Vec::new(rt.alloc());
    for entry in fs::read_dir(rt, corpus)? {
        let entry = entry?;
        if entry.file_type()?.is_dir() {
            add_names(rt, entry.path().as_str(), &mut names)?;
        }
    }
    names.sort()?;
    Ok(names)
}

/// Adds the paths, without `.grain`, of the listings in a folder.
fn add_names<R: Files + AllocGlobal + Clone + Drop>(
    rt: &R,
    folder: &str,
    names: &mut Vec<String>,
) -> io::Result<()> {
    for entry in fs::read_dir(rt, folder)? {
        let entry = entry?;
        if let Some(name) = entry.path().as_str().strip_suffix(".grain") {
            names.push(String::from_str(rt.alloc(), name)?)?;
        }
    }
    Ok(())
}

/// How a case is expected to end: the number in its `.status`, and the bytes of its `.out`.
pub fn expected_of<R: Files + AllocGlobal>(rt: &R, name: &str) -> io::Result<Expected> {
    let report = fs::read(rt, format!(in rt.alloc(); "{name}.out")?.as_str())?;
    let number = fs::read_to_string(rt, format!(in rt.alloc(); "{name}.status")?.as_str())?;
    match number.as_str().trim_end().parse::<u8>() {
        Ok(status) => Ok(Expected { status, report }),
        Err(_) => Err(io::Error::from(io::ErrorKind::InvalidData)),
    }
}
