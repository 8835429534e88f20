// The script program: document 01's commands on standard input, an answer to each line on standard output. The gate runs it on an empty input,
// to which it answers nothing.
#![tactic(auto)]

fn main(rt: HostRuntime) {
    app::run(rt);
}
