// PYX from standard input, N-Triples to standard output, as they come; after a refusal one last line, which says its number and event.
// The first write or read that fails ends the program, and one line on standard error says which, and behind how much.
#![tactic(auto)]

ghost use Rattle.std.specs.Prelude.{◌<◌, ◌≡◌, length};
ghost use Rattle.std.proofs.Math.Option.{none};
ghost use Rattle.spec.specs.Modes.{base_mode};
ghost use Rattle.spec.specs.Pyx2nt.{last_line};
ghost use Rattle.copy.specs.Copy.{Wrote};
ghost use Rattle.reader_contract.specs.Meets.{number_of};
ghost use Rattle.convert.specs.Way.{start, Ended};
ghost use Rattle.convert.specs.Places.{Comes, Few};

use convert::{How, Outcome};
use spec::{Mode, Refusal};
use std::io::{Stderr, Stdin, Stdout};
use streams::Stream;

fn main(rt: HostRuntime) {
    let stderr = rt.stderr();
    if streams::argument_count(&rt) > 1 {
        streams::tell_unknown(
            &rt,
            stderr,
            b"pyx2nt",
            1,
            b"it takes none and reads standard input",
        );
        return;
    }
    let mut source = Stream::over(rt.stdin());
    let mut target = Stream::over(rt.stdout());
    let outcome = convert::document(&mut source, &mut target, Mode::base(), None);
    end(&source, &mut target, stderr, outcome);
}

// The program at the end of its way: its last line, or what failed, told.
fn end(source: &Stream<Stdin>, target: &mut Stream<Stdout>, stderr: Stderr, outcome: Outcome)
    requires { Comes (start base_mode none) outcome × Few outcome }
{
    let event = outcome.event;
    let bytes = outcome.bytes;
    let how = outcome.how;
    match how {
        How::Done(answer) => print_last(target, stderr, answer, event, bytes),
        How::Unwritten => tell_unwritten(target, stderr, event, bytes),
        How::Unread => streams::tell(
            stderr,
            source.errno(),
            b"pyx2nt: read failed",
            event - 1,
            bytes,
        ),
        // Without a base no start is refused: by its proof nothing comes here.
        How::Unstarted(why) => print_last(target, stderr, Err(why), event, bytes),
    }
}

// A write failed: all lines of the events before `event` were taken, and `bytes` bytes in all.
fn tell_unwritten(target: &Stream<Stdout>, stderr: Stderr, event: usize, bytes: usize)
    requires { 0 < event }
{
    streams::tell(
        stderr,
        target.errno(),
        b"pyx2nt: write failed",
        event - 1,
        bytes,
    );
}

// The last line, if there is one, printed behind `bytes` bytes of lines.
fn print_last(
    target: &mut Stream<Stdout>,
    stderr: Stderr,
    answer: Result<(), Refusal>,
    event: usize,
    bytes: usize,
)
    requires { Ended (start base_mode none) (number_of answer) event bytes × (bytes < 9_223_372_036_854_775_808) }
{
    let mut line = [0u8; 64];
    let n = last_line(&mut line, answer, event);
    let printed = streams::print(target, &line[..n]);
    let whole = printed.is_whole();
    let taken = printed.taken();
    if whole {
        return;
    }
    tell_unwritten(target, stderr, event, bytes + taken);
}

// The line after a refusal, to the front of `line`: its length.
fn last_line(line: &mut [u8], answer: Result<(), Refusal>, event: usize) -> usize
    requires { length line.old ≡ 64 }
    ensures { Wrote line.old line.new 0 result (last_line (number_of answer) event) }
{
    match answer {
        Ok(()) => 0,
        Err(why) => {
            let n = streams::put_number(line, 0, b"# refused ", u8::from(why) as u64);
            let m = streams::put_number(line, n, b" at event ", event as u64);
            copy::put(line, m, b"\n");
            m + 1
        }
    }
}
