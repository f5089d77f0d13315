// The two ends of the reader: streams of events cut and decoded, and each kind of line written.
#![tactic(auto)]

mod events;
mod lines;

fn main(rt: HostRuntime) {
    events::try_all(rt.stdin(), rt.stdout());
    lines::try_all(rt.stdout());
}
