// Plays a trace: lines on standard input, one answer line for each on standard output. It starts from an empty bench; empty input gives empty output; it
// ends with its input. Where a read fails, the lines before it are answered and a begun line is not played; where a write fails, it stops.
#![tactic(auto)]

fn main(rt: HostRuntime) {
    turns::answer(&rt);
}
