//! The program `scramble`: a run on the system's words and streams. The stored run has seven words, a list on the
//! standard input, a round that is written whole, and then a refusal with its exit code, of which nothing stands on the
//! output; so a `main` that ends well whatever the run says is refused.
#![tactic(auto)]

use scr_sheet::{Exit, run_on_host};

fn main(rt: HostRuntime) -> Exit {
    run_on_host(&rt, &rt)
}
