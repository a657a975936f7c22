//! The program: `standby scan TABLE` prints the rows of a table as the archived log leaves them, and `standby session`
//! answers the lines of standard input while the log is replayed.
#![tactic(auto)]

use outside::{Folder, StdinSource, StdoutSink};
use standby_cli::standby_main;
use std::process::ExitCode;
use std::{env, io};

/// Hands the program's words over, without its name, with the folders `archive` and `base`, standard input and
/// standard output, and ends with the status.
fn main(rt: HostRuntime) -> io::Result<ExitCode> {
    let mut words = Vec::new(rt.alloc());
    for word in env::args(&rt)?.skip(1) {
        words.push(word)?;
    }
    let mut archive = Folder::archive(rt.alloc(), &rt);
    let mut base = Folder::base(rt.alloc(), &rt);
    let mut source = StdinSource::new(rt.reader());
    let mut out = StdoutSink::new(&rt);
    let status = standby_main(
        rt.alloc(),
        words.as_slice(),
        &mut archive,
        &mut base,
        &mut source,
        &mut out,
    );
    Ok(ExitCode::from(status))
}
