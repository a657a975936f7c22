//! The real folder `archive` of the folder where the program runs. Each case makes it, and takes it away again.

use crate::archives::fetches;
use case_text::{Wrong, bytes};
use outside::Folder;
use std::fs;

/// What is made: `folder PATH`, `file PATH HEX` ..; then `fetch NAME AT MOST ..`.
pub fn answer(rt: &HostRuntime, question: &[&str]) -> Result<(), Wrong> {
    let mut rest = question;
    for _ in 0..question.len() {
        match *rest {
            ["folder", path, ref behind @ ..] => {
                fs::create_dir(rt, path)?;
                rest = behind;
            }
            ["file", path, hex, ref behind @ ..] => {
                let contents = bytes(rt.alloc(), hex)?;
                fs::write(rt, path, contents.as_slice())?;
                rest = behind;
            }
            _ => break,
        }
    }
    let mut archive = Folder::archive(rt.alloc(), rt);
    fetches(rt, &mut archive, rest)?;
    take_away(rt)
}

/// Takes away what stands at `archive`: a folder, a file or nothing.
fn take_away(rt: &HostRuntime) -> Result<(), Wrong> {
    if fs::remove_file(rt, "archive").is_err() && fs::remove_dir_all(rt, "archive").is_err() {
        fs::create_dir(rt, "archive")?;
        fs::remove_dir(rt, "archive")?;
    }
    Ok(())
}
