// Explains a trace: lines on standard input, and for each on standard output its answer, whom that names, and for 6 how that one owns the instrument and
// whether it drains. It starts from an empty bench; empty input gives empty output; it ends with its input. Where a read fails, the lines before it are explained
// and a begun line is not; where a write fails, it stops.
#![tactic(auto)]

fn main(rt: HostRuntime) {
    turns::explain(&rt);
}
