// The reader's three calls, run: the documents of data/ (see the README there), and what no file of documents can hold.
#![tactic(auto)]

mod calls;
mod replay;

use spec::Mode;

fn main(rt: HostRuntime) {
    let stdout = rt.stdout();
    replay::replay_file(&rt, stdout, "documents", Mode::base());
    replay::replay_file(&rt, stdout, "numbers", Mode::base());
    replay::replay_file(&rt, stdout, "limits", Mode::base());
    replay::replay_file(&rt, stdout, "w3c/tests", Mode::base());
    replay::replay_file(&rt, stdout, "languages", Mode::base());
    replay::replay_file(&rt, stdout, "packets", Mode::xmp());
    calls::try_all(stdout);
}
