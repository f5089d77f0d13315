// iceshaft --pyx [--base IRI] [--xmp] [FILE..]: documents from files, or one from standard input, to N-Triples on standard output, as they come.
// What is not as it should be is told on standard error, a line for each.
#![tactic(auto)]

ghost use Rattle.std.specs.Prelude.{◌≤◌, length};
ghost use Rattle.iceshaft.specs.Arguments.{Settled};

mod arguments;
mod telling;

use arguments::Chosen;
use convert::How;
use spec::Mode;
use std::env::{Env, FillError};
use std::fs::File;
use std::io;
use std::io::{Read, Stderr, Stdin, Stdout};
use std::rt::Files;
use streams::Stream;

// The system's number of the error of a name that is no text.
const EILSEQ: i32 = 84;

fn main(rt: HostRuntime) {
    let count = streams::argument_count(&rt);
    let stderr = rt.stderr();
    if let Some(chosen) = choose(&rt, stderr, count) {
        let mut target = Stream::over(rt.stdout());
        convert_all(&rt, rt.stdin(), &mut target, stderr, chosen, count);
    }
}

// What all arguments say; or one of them is wrong, and that is told.
fn choose<E: Env>(env: &E, stderr: Stderr, count: usize) -> Option<Chosen>
    ensures { Settled result }
{
    let mut word = [0u8; Chosen::MOST];
    let mut chosen = Chosen::none();
    for i in 1..count {
        chosen = look_at(env, stderr, chosen, i, &mut word)?;
    }
    settle(stderr, chosen)
}

// Argument `i`, by way of `word`; one that is wrong is told.
fn look_at<E: Env>(
    env: &E,
    stderr: Stderr,
    chosen: Chosen,
    i: usize,
    word: &mut [u8],
) -> Option<Chosen>
    requires { length word.old ≤ 4_096 }
{
    let n = match env.arg(i, word) {
        Ok(n) => n,
        Err(FillError::TooLong) => {
            telling::tell_long(stderr, i);
            return None;
        }
        Err(FillError::NotPresent) => 0,
    };
    let looked = chosen.look(i, &word[..n]);
    if looked.is_none() {
        streams::keep_to_line(word);
        telling::tell_unknown(stderr, &word[..n]);
    }
    looked
}

// Behind the last argument: a base was said whole, and PYX is what is read.
fn settle(stderr: Stderr, chosen: Chosen) -> Option<Chosen>
    ensures { Settled result }
{
    if chosen.waits {
        telling::tell_line(stderr, b"iceshaft: --base without an IRI\n");
        return None;
    }
    if !chosen.pyx {
        telling::tell_line(
            stderr,
            b"iceshaft: --pyx is missing: PYX is all that it reads\n",
        );
        return None;
    }
    Some(chosen)
}

// Argument `i` to the front of `word`: its length, 0 where there is none or it has no room.
fn argument<E: Env>(env: &E, i: usize, word: &mut [u8]) -> usize
    ensures { result ≤ length word.new }
{
    env.arg(i, word).unwrap_or(0)
}

// The files, or standard input where there are none, all in the same mode and with the same base.
fn convert_all<R: Env + Files>(
    rt: &R,
    stdin: Stdin,
    target: &mut Stream<Stdout>,
    stderr: Stderr,
    chosen: Chosen,
    count: usize,
) {
    let mut text = [0u8; Chosen::MOST];
    let base = chosen_base(rt, chosen, &mut text);
    if let Some(first) = chosen.file {
        convert_files(rt, target, stderr, first, count, chosen.mode(), base);
        return;
    }
    let mut source = Stream::over(stdin);
    convert_one(
        &mut source,
        target,
        stderr,
        b"standard input",
        chosen.mode(),
        base,
    );
}

// The base that was chosen, by way of `text`.
fn chosen_base<'a, E: Env>(env: &E, chosen: Chosen, text: &'a mut [u8]) -> Option<&'a [u8]> {
    let i = chosen.base?;
    let n = argument(env, i, text);
    Some(&text[..n])
}

// The files from argument `first` on, up to the first write that fails.
fn convert_files<R: Env + Files>(
    rt: &R,
    target: &mut Stream<Stdout>,
    stderr: Stderr,
    first: usize,
    count: usize,
    mode: Mode,
    base: Option<&[u8]>,
) {
    let mut name = [0u8; Chosen::MOST];
    for i in first..count {
        if !convert_file(rt, target, stderr, i, &mut name, mode, base) {
            return;
        }
    }
}

// The file that argument `i` names, by way of `name`: whether the next is to be read. One that cannot be opened is told.
fn convert_file<R: Env + Files>(
    rt: &R,
    target: &mut Stream<Stdout>,
    stderr: Stderr,
    i: usize,
    name: &mut [u8],
    mode: Mode,
    base: Option<&[u8]>,
) -> bool
    requires { length name.old ≤ 4_096 }
{
    let n = argument(rt, i, name);
    let opened = open(rt, &name[..n]);
    streams::keep_to_line(name);
    match opened {
        Ok(file) => {
            let mut source = Stream::over(file);
            convert_one(&mut source, target, stderr, &name[..n], mode, base)
        }
        Err(error) => {
            telling::tell_unopened(stderr, streams::errno_of(&error), &name[..n]);
            true
        }
    }
}

// The file of this name, to be read. The library opens files by names that are text alone.
fn open<R: Files>(rt: &R, name: &[u8]) -> io::Result<R::File> {
    match str::from_utf8(name) {
        Ok(path) => File::open(rt, path),
        Err(_) => Err(io::Error::from_raw_os_error(EILSEQ)),
    }
}

// A document, and how it ended, told: whether the next is to be read.
fn convert_one<R: Read>(
    source: &mut Stream<R>,
    target: &mut Stream<Stdout>,
    stderr: Stderr,
    name: &[u8],
    mode: Mode,
    base: Option<&[u8]>,
) -> bool
    requires { length name.now ≤ 4_096 }
{
    let outcome = convert::document(source, target, mode, base);
    let how = outcome.how;
    let errno = match how {
        How::Unwritten => target.errno(),
        _ => source.errno(),
    };
    telling::tell(stderr, errno, name, outcome);
    telling::goes_on(how)
}
