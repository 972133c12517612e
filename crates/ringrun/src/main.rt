//! `ringrun KIND CAPACITY`: runs the commands of standard input on a ring buffer, and prints what they reply.
#![tactic(auto)]

pub use ringrun_service::serve;
use ringrun_service::{Status, run};
use std::rt::Env;
use std::{env, io};

fn main(rt: HostRuntime) -> Status {
    run(
        rt.alloc(),
        words(&rt),
        &mut rt.stdin(),
        &mut rt.stdout(),
        &mut rt.stderr(),
    )
}

/// Returns the program's arguments after its name.
fn words(rt: &(impl Env + AllocGlobal)) -> io::Result<Vec<String>> {
    Ok(env::args(rt)?.skip(1).collect(rt.alloc())?)
}
