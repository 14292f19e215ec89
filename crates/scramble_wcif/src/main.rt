//! The program `scramble-wcif`: a run on the system's words and streams. The stored run lists a small competition.
#![tactic(auto)]

use scr_wcif::{Exit, Wcif, run_on_host};

fn main(rt: HostRuntime) -> Exit {
    run_on_host(&Wcif, &rt)
}
