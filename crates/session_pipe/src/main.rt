//! Answers a session: jobs come as frames on standard input, and the frames of their outcomes go to standard output. Functions are
//! cards. The status is 0 where the session has ended, and 1 where it ended otherwise, which a line on standard error says.
#![tactic(auto)]

use object_name::{ReadSource, WriteSink};
use sandbox_run::Cards;
use std::io;
use std::process::ExitCode;
use worker_link::{WorkerEnd, serve};

fn main(rt: HostRuntime) -> ExitCode {
    let stdout = rt.stdout();
    let end = serve(
        rt.alloc(),
        &mut Cards,
        &mut ReadSource::new(rt.reader()),
        &mut WriteSink::new(io::writer(&stdout)),
    );
    match end {
        WorkerEnd::Ended => ExitCode::SUCCESS,
        end => {
            // The status says so even where standard error can't be written.
            let _ = eprintln!(rt; "session_pipe: {end:?}");
            ExitCode::FAILURE
        }
    }
}
