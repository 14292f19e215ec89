//! The program `scramble-pages`: a run on the system's words and streams.
#![tactic(auto)]

use scr_pages::{Exit, Pages, run_on_host};

fn main(rt: HostRuntime) -> Exit {
    run_on_host(&Pages, &rt)
}
