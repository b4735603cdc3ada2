// Replays a case file from standard input: makes each call, and compares the answer and every byte of the lent buffer.
// A case whose header says more than 64 KiB, and one inside which the file ends, has a line of its own and differs.
// Reading ends there: nothing says where the next case would start.
#![tactic(auto)]

mod afresh;
mod call;
mod case;
mod change;
mod compare;
mod display;
mod month;
mod report;
mod space;
mod tally;

ghost use Rattle.std.specs.Prelude.{◌+◌, ◌≤◌, ◌≡◌, length, take, drop};
ghost use Rattle.replay.specs.Verdicts.{verdict};

use call::Reply;
use case::Case;
use compare::Alike;
use std::io::Read;
use tally::{Step, Tally};

// How many cases that differ have a line of their own.
const SHOWN: u64 = 20;

// Reads until the buffer is full, the input ends or a read fails: how many bytes came to its front.
fn read_full(input: &mut impl Read, buffer: &mut [u8]) -> usize
    ensures { result ≤ length buffer.new }
{
    let mut done = 0;
    // A turn goes on by what a read gave: no step that a range could count.
    while done < buffer.len() {
        let n = match input.read(&mut buffer[done..]) {
            Ok(n) => n,
            Err(_) => 0,
        };
        if n == 0 {
            break;
        }
        done += n;
    }
    done
}

// Whether so many bytes came into the front of a buffer.
fn filled(input: &mut impl Read, buffer: &mut [u8], n: usize) -> bool
    requires { n ≤ length buffer.old }
{
    read_full(input, &mut buffer[..n]) == n
}

// Whether the texts came, and the buffer before and after the call.
fn body(
    input: &mut impl Read,
    texts: &mut [u8],
    lent: &mut [u8],
    after: &mut [u8],
    n: usize,
    t: usize,
) -> bool
    requires { (n ≤ length texts.old) × (t ≤ length lent.old) × (t ≤ length after.old) }
{
    if filled(input, texts, n) {
        if filled(input, lent, t) {
            return filled(input, after, t);
        }
    }
    false
}

// The two texts stand one after the other, each part at the front of its buffer.
fn judged(
    c: Case,
    must: Reply,
    texts: &[u8],
    lent: &mut [u8],
    spare: &mut [u8],
    work: &mut [u8],
    after: &[u8],
) -> Option<Alike>
    requires { (c.first + c.second ≤ length texts.now) × (c.lent ≤ length lent.old) × (c.lent ≤ length spare.old) × (c.second ≤ length spare.old) × (c.second ≤ length work.old) × (c.lent ≤ length after.now) }
    ensures { result ≡ verdict c must (take c.first texts.now) (take c.second (drop c.first texts.now)) (take c.lent lent.old) (take c.lent after.now) }
{
    let n = c.first;
    let e = n + c.second;
    let t = c.lent;
    compare::judged(
        c,
        must,
        &texts[..n],
        &texts[n..e],
        &mut lent[..t],
        spare,
        work,
        &after[..t],
    )
}

// The case behind its header.
fn whole(
    rt: &impl Print,
    input: &mut impl Read,
    number: u64,
    is_shown: bool,
    c: Case,
    must: Reply,
    texts: &mut [u8],
    lent: &mut [u8],
    spare: &mut [u8],
    work: &mut [u8],
    after: &mut [u8],
) -> Step
    requires { (c.first + c.second ≤ length texts.old) × (c.lent ≤ length lent.old) × (c.lent ≤ length spare.old) × (c.second ≤ length spare.old) × (c.second ≤ length work.old) × (c.lent ≤ length after.old) }
{
    if body(input, texts, lent, after, c.first + c.second, c.lent) {
        let v = judged(c, must, texts, lent, spare, work, after);
        return report::told(rt, number, is_shown, c.call, v);
    }
    report::cut_off(rt, number);
    Step::Broken
}

// The next case, with its number.
fn next(
    rt: &impl Print,
    input: &mut impl Read,
    number: u64,
    is_shown: bool,
    texts: &mut [u8; 65536],
    lent: &mut [u8; 65536],
    spare: &mut [u8; 65536],
    work: &mut [u8; 65536],
    after: &mut [u8; 65536],
) -> Step {
    let mut head = [0u8; 56];
    let got = read_full(input, &mut head);
    if got == 0 {
        return Step::End;
    }
    if got < case::HEAD {
        report::cut_off(rt, number);
        return Step::Broken;
    }
    let c = case::case_of(&head);
    if case::fits(c.first, c.second, c.lent) {
        return whole(
            rt,
            input,
            number,
            is_shown,
            c,
            case::must_of(&head),
            texts,
            lent,
            spare,
            work,
            after,
        );
    }
    report::too_large(rt, number);
    Step::Broken
}

fn replayed(
    rt: &impl Print,
    input: &mut impl Read,
    texts: &mut [u8; 65536],
    lent: &mut [u8; 65536],
    spare: &mut [u8; 65536],
    work: &mut [u8; 65536],
    after: &mut [u8; 65536],
) -> Tally {
    let mut cases: u64 = 0;
    let mut differing: u64 = 0;
    // The input alone tells how many cases there are: they are counted as they are read.
    while cases < u64::MAX {
        let s = next(
            rt,
            input,
            cases + 1,
            differing < SHOWN,
            texts,
            lent,
            spare,
            work,
            after,
        );
        if tally::is_end(s) {
            break;
        }
        cases += 1;
        differing += tally::differing_in(s);
        if tally::is_broken(s) {
            break;
        }
    }
    Tally { cases, differing }
}

fn main(rt: HostRuntime) {
    let mut texts = [0u8; 65536];
    let mut lent = [0u8; 65536];
    let mut spare = [0u8; 65536];
    let mut work = [0u8; 65536];
    let mut after = [0u8; 65536];
    let mut input = rt.stdin();
    let t = replayed(
        &rt, &mut input, &mut texts, &mut lent, &mut spare, &mut work, &mut after,
    );
    report::total(&rt, t.cases, t.differing);
}
