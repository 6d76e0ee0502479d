// The program: a text on standard input, its answer on standard output. Where that cannot be had, a line on standard
// error says why. Which bytes the system moves no contract can say, so the work is done for any reader and any writer:
// of those that say which bytes they have, the contracts say what is read and what is written.
#![tactic(auto)]

ghost use Rattle.std.specs.Prelude.{◌≡◌, ◌≤◌, length, take, drop, IfSome, OnOk, OnErr, IfErr, None, Ok, Err};
ghost use Rattle.std.specs.Io.KnownBytes.{Appends};
ghost use Rattle.contour_band.specs.Steps.{Fits, Idle, InputFits, IsRetried};
ghost use Rattle.contour_band.specs.Bytes.{StepReads, StepWrites, IsFrontRead, AppendsFront, KeepsUnread};
ghost use Rattle.text_answers.specs.Answers.{answer_of};

use std::io::{ErrorKind, Read, Write};
use std::process::ExitCode;
use std::{io, thread};

// Why a text has no whole answer.
#[derive(Clone, Copy)]
enum NoAnswer {
    Unread(io::Error),
    Unwritten(io::Error),
}

// The status says whether the answer is whole. Where nobody reads it to its end, as `head` does not, that is all that
// is said.
fn main(rt: HostRuntime) -> ExitCode {
    match run(&mut rt.stdin(), &mut rt.stdout()) {
        Ok(()) => ExitCode::SUCCESS,
        Err(NoAnswer::Unread(error)) => fail(
            &rt,
            "contour_band: no answer; give it a text that can be read. Reading standard input failed",
            error,
        ),
        Err(NoAnswer::Unwritten(error)) if error.kind() == ErrorKind::BrokenPipe => {
            ExitCode::FAILURE
        }
        Err(NoAnswer::Unwritten(error)) => fail(
            &rt,
            "contour_band: no whole answer; give it an output that takes it. Writing standard output failed",
            error,
        ),
    }
}

// Says on standard error what failed, and why. Where that cannot be said either, the status alone tells of it.
fn fail(rt: &impl Eprint, what: &str, error: io::Error) -> ExitCode {
    let _ = eprintln!(rt; "{what}: {error}");
    ExitCode::FAILURE
}

// Answers all that a reader has to give, as a text. One byte more than a text may have is read, which shows that a
// longer text is too long.
fn run<R: Read, W: Write>(input: &mut R, output: &mut W) -> Result<(), NoAnswer>
    ensures whole { OnOk result (IfSome (R.remaining input.old) (λ xs.
        Appends (W.contents output.old) (W.contents output.new) (answer_of xs))) }
    ensures part { OnErr result (IfSome (R.remaining input.old) (λ xs.
        AppendsFront (W.contents output.old) (W.contents output.new) (answer_of xs))) }
    ensures unread { IfErr result (λ reason.
        KeepsUnread reason (W.contents output.old) (W.contents output.new)) }
{
    let mut text = [0u8; 16385];
    match read_text(input, &mut text) {
        Ok(n) => match put_answer(output, &text[..n]) {
            Ok(()) => Ok(()),
            Err(error) => Err(NoAnswer::Unwritten(error)),
        },
        Err(error) => Err(NoAnswer::Unread(error)),
    }
}

// Writes the answer to a text. Some file systems say only at `close` that bytes were lost: `std` does not pass that on.
fn put_answer<W: Write>(output: &mut W, text: &[u8]) -> io::Result<()>
    ensures whole { OnOk result
        (Appends (W.contents output.old) (W.contents output.new) (answer_of text.now)) }
    ensures part { OnErr result
        (AppendsFront (W.contents output.old) (W.contents output.new) (answer_of text.now)) }
{
    let mut out = [0u8; 243100];
    let k = answer::answer(text, &mut out);
    write_all(output, &out[..k])?;
    output.flush()
}

// Reads to the end of what a reader gives, or until the list is full. A proved loop has to end, and nothing says that
// an input does, so the turns are counted down from a number that no run uses up.
fn read_text<R: Read>(input: &mut R, text: &mut [u8]) -> io::Result<usize>
    ensures fits { InputFits result (length text.new) }
    ensures front { IsFrontRead result (R.remaining input.old) text.new }
{
    let mut n: usize = 0;
    let mut turns = u64::MAX;
    while turns > 0 && n < text.len() {
        turns -= 1;
        if let Some(k) = read_from(input, text, n)? {
            if k == 0 {
                return Ok(n);
            }
            n += k;
        }
    }
    if n < text.len() {
        Err(io::Error::from(ErrorKind::TimedOut))
    } else {
        Ok(n)
    }
}

// One call of `read`, to the places from `at` on: how many bytes it moved, or `None` where it is made again.
fn read_from<R: Read>(input: &mut R, text: &mut [u8], at: usize) -> io::Result<Option<usize>>
    requires { at ≤ length text.old }
    ensures fits { Fits result at (length text.new) }
    ensures before { take at text.new ≡ take at text.old }
    ensures bytes { StepReads result (R.remaining input.old) (R.remaining input.new) (drop at text.new) }
{
    let rest: &mut [u8] = &mut text[at..];
    match input.read(rest) {
        Ok(k) => Ok(Some(k)),
        Err(error) => trouble(error),
    }
}

// Writes all bytes, or says why it did not.
fn write_all<W: Write>(output: &mut W, bytes: &[u8]) -> io::Result<()>
    ensures whole { OnOk result (Appends (W.contents output.old) (W.contents output.new) bytes.now) }
    ensures part { OnErr result (AppendsFront (W.contents output.old) (W.contents output.new) bytes.now) }
{
    let mut n: usize = 0;
    let mut turns = u64::MAX;
    while turns > 0 && n < bytes.len() {
        turns -= 1;
        if let Some(k) = write_from(output, bytes, n)? {
            n += k;
        }
    }
    if n == bytes.len() {
        Ok(())
    } else {
        Err(io::Error::from(ErrorKind::TimedOut))
    }
}

// One call of `write`, for the bytes from `at` on: how many it moved, or `None` where it is made again.
fn write_from<W: Write>(output: &mut W, bytes: &[u8], at: usize) -> io::Result<Option<usize>>
    requires { at ≤ length bytes.now }
    ensures fits { Fits result at (length bytes.now) }
    ensures bytes { StepWrites result (W.contents output.old) (W.contents output.new) (drop at bytes.now) }
{
    let rest: &[u8] = &bytes[at..];
    match output.write(rest) {
        Ok(k) => Ok(Some(k)),
        Err(error) => trouble(error),
    }
}

// After a call that failed: one that was interrupted, or for which the other end was not ready, is made again. There is
// no call that waits for an end to become ready, so meanwhile others are let run.
fn trouble(error: io::Error) -> io::Result<Option<usize>>
    ensures idle { Idle result }
    ensures again { IsRetried error → result ≡ Ok None }
    ensures failed { (IsRetried error → ⊥) → result ≡ Err error }
{
    let kind = error.kind();
    if kind == ErrorKind::WouldBlock {
        thread::yield_now();
    } else if kind != ErrorKind::Interrupted {
        return Err(error);
    }
    Ok(None)
}
