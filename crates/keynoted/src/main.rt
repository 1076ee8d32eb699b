//! keynoted: may these principals do this?
#![tactic(auto)]

mod endings;
mod idle;
mod run;
mod serve_ending;
mod serve_line;
mod serving;
mod words;

use crate::idle::{IdleFault, idle_timeout};
use kn_base::NoMemory;
use kn_inputs::InputFault;
use kn_outside::Passing;
use kn_real::{RealFiles, StdLink, StdOut};
use kn_tcp::TcpNet;
use std::process::ExitCode;

fn main(rt: HostRuntime) -> ExitCode {
    let mut out = StdOut::new(rt.stdout());
    let timeout = match idle_timeout(&rt) {
        Ok(timeout) => timeout,
        Err(IdleFault::NoMemory) => {
            return ExitCode::from(endings::end(&mut out, InputFault::Memory));
        }
        Err(IdleFault::NoNumber) => {
            let _ = eprintln!(rt; "keynoted: KEYNOTED_IDLE_SECONDS isn't a number from 1 to 86400");
            return ExitCode::from(1);
        }
    };
    let words = match words::words(&rt) {
        Ok(words) => words,
        Err(NoMemory) => return ExitCode::from(endings::end(&mut out, InputFault::Memory)),
    };
    let mut files = RealFiles::new(rt);
    let mut net = TcpNet::new(rt, timeout);
    let mut own = StdLink::new(rt.stdin(), rt.stdout());
    let status = run::run(
        &rt,
        rt.alloc(),
        words.as_slice(),
        &mut files,
        &mut net,
        &mut own,
        &mut out,
        &Passing,
    );
    ExitCode::from(status)
}
