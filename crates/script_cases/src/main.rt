// The script program on generated scripts, held to the Rust's answers, and on the stored cases.
#![tactic(auto)]

fn main(rt: HostRuntime) {
    app::run(rt);
}
