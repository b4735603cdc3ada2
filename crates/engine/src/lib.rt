// The second engine (M-113): rule 8 with what is pending in a table of fixed size. One loop, and no reader calls
// itself.
#![tactic(auto)]

ghost use Rattle.std.specs.Prelude.{◌≡◌};
ghost use Rattle.amount.specs.Expression.{combined, expression_in};
ghost use Rattle.amount.specs.steps.Answers.{answer_of};
ghost use Rattle.engine.specs.steps.Turns.{first_frame, joined, fallback, total_of, waiting_of, after_of, settle_of, open_of, begin_of, start_of, operand_of, shut_of};

use amount::expression::GROUPS;
use amount::{expression, literal};
use decimal::{Form, Value};
use text::run::Class;
use text::stop::{Cause, Reading, Stop};
use text::{bytes, run};

// A value with the operator after it, whose other operand is being read; or none. As an Option of a pair it takes eight
// bytes more, twice in each of 32 frames, and the stack is over its bar of 4,096 bytes.
#[derive(Clone, Copy)]
enum Pending {
    Nothing,
    With(u8, Value),
}

// What is pending in an expression: whether it is a negation, a sum, a product, and where the last operand ends.
#[derive(Clone, Copy)]
struct Frame {
    negated: bool,
    sum: Pending,
    product: Pending,
    end: usize,
}

// What comes next. An enum, for a closure that is kept would have to be boxed.
#[derive(Clone, Copy)]
enum Next {
    // An expression starts at a place.
    Start(usize),
    // An operand is wanted at a place.
    Operand(Frame, usize),
    // A group opens at a place.
    Group(Frame, usize),
    // An expression is complete: where it ends, and its value.
    Done(usize, Value),
    // An operand misses.
    Missed(Frame),
}

// Nothing is pending before the first operand.
fn first(negated: bool) -> Frame
    ensures { result ≡ first_frame negated }
{
    Frame {
        negated,
        sum: Pending::Nothing,
        product: Pending::Nothing,
        end: 0,
    }
}

fn join(p: Pending, v: Value, form: Form) -> Value
    ensures { result ≡ joined (combined form) p v }
{
    match p {
        Pending::Nothing => v,
        Pending::With(op, u) => expression::combine(op, u, v, form),
    }
}

// An expression whose operand misses ends before the operator.
fn fallen(f: Frame, form: Form) -> Reading<Value>
    ensures { result ≡ answer_of (fallback (combined form) f) }
{
    let end = f.end;
    let sum = f.sum;
    let product = f.product;
    match product {
        Pending::With(_, v) => Ok((end, join(sum, v, form))),
        Pending::Nothing => match sum {
            Pending::With(_, u) => Ok((end, u)),
            Pending::Nothing => Err(Stop::Miss),
        },
    }
}

// What is pending, with the operand v, is one value. Inlined, since a frame of its own would stand on the stack too.
#[inline(always)]
fn total(f: Frame, v: Value, form: Form) -> Value
    ensures { result ≡ total_of (combined form) f v }
{
    let sum = f.sum;
    let product = f.product;
    join(sum, join(product, v, form), form)
}

fn waiting(sum: Pending, product: Pending, end: usize) -> Frame
    ensures { result ≡ waiting_of sum product end }
{
    Frame {
        negated: false,
        sum,
        product,
        end,
    }
}

// What is pending once an operator follows the operand v: `*` or `/` where `times`, else `+` or `-`.
fn after(f: Frame, times: bool, op: u8, v: Value, e: usize, form: Form) -> Frame
    ensures { result ≡ after_of (combined form) f times op v e }
{
    let sum = f.sum;
    let product = f.product;
    if times {
        return waiting(sum, Pending::With(op, join(product, v, form)), e);
    }
    waiting(Pending::With(op, total(f, v, form)), Pending::Nothing, e)
}

// An operand was read to a place, with a value.
fn settle(s: &[u8], f: Frame, e: usize, v: Value, form: Form) -> Next
    ensures { result ≡ settle_of (combined form) s.now f e v }
{
    if f.negated {
        return Next::Done(e, expression::negated(v));
    }
    let i = run::run(s, e, Class::Blank);
    let op = bytes::peek(s, i);
    let times = expression::is_operator(true, op);
    let plus = expression::is_operator(false, op);
    if times | plus {
        let f = after(f, times, op, v, e, form);
        return Next::Operand(f, run::run(s, i + 1, Class::Blank));
    }
    Next::Done(e, total(f, v, form))
}

fn opening(s: &[u8], f: Frame, at: usize) -> Next
    ensures { result ≡ open_of s.now f at }
{
    if bytes::peek(s, at) == b'(' {
        Next::Group(f, at)
    } else {
        Next::Missed(f)
    }
}

// An expression that starts with no literal. Not inlined: its frames would stand on the stack while `start` settles.
#[inline(never)]
fn begin(s: &[u8], at: usize) -> Next
    ensures { result ≡ begin_of s.now at }
{
    if bytes::peek(s, at) == b'-' {
        opening(s, first(true), run::run(s, at + 1, Class::Blank))
    } else {
        opening(s, first(false), at)
    }
}

fn start(s: &[u8], at: usize, form: Form) -> Next
    ensures { result ≡ start_of (combined form) s.now at }
{
    match literal::literal_at(s, at) {
        Ok((e, v)) => settle(s, first(false), e, v, form),
        Err(_) => begin(s, at),
    }
}

fn operand(s: &[u8], f: Frame, at: usize, form: Form) -> Next
    ensures { result ≡ operand_of (combined form) s.now f at }
{
    match literal::literal_at(s, at) {
        Ok((e, v)) => settle(s, f, e, v, form),
        Err(_) => opening(s, f, at),
    }
}

// The expression of a group is complete, and f is what is pending around the group.
fn shut(s: &[u8], f: Frame, e: usize, v: Value, form: Form) -> Next
    ensures { result ≡ shut_of (combined form) s.now f e v }
{
    let i = run::run(s, e, Class::Blank);
    if bytes::peek(s, i) == b')' {
        settle(s, f, i + 1, v, form)
    } else {
        Next::Missed(f)
    }
}

// Rule 8 in a form: the answer of `expression::expression_in`.
pub fn evaluate(s: &[u8], at: usize, form: Form) -> Reading<Value>
    ensures { result ≡ answer_of (expression_in form s.now at) }
{
    let mut next = start(s, at, form);
    // A literal that no operator follows needs no table.
    if let Next::Done(e, v) = next {
        return Ok((e, v));
    }
    let mut frames = [first(false); GROUPS];
    let mut depth: usize = 0;
    // A turn is a step of the machine; only what it reads tells which is the last.
    loop {
        match next {
            Next::Start(p) => {
                next = start(s, p, form);
            }
            Next::Operand(f, p) => {
                next = operand(s, f, p, form);
            }
            Next::Group(f, p) => {
                if GROUPS <= depth {
                    return Err(Stop::Hard(Cause::TooDeep, p));
                }
                frames[depth] = f;
                depth += 1;
                next = Next::Start(run::run(s, p + 1, Class::Blank));
            }
            Next::Done(e, v) => {
                if depth == 0 {
                    return Ok((e, v));
                }
                depth -= 1;
                let around = frames[depth];
                next = shut(s, around, e, v, form);
            }
            Next::Missed(f) => {
                // Where an operand misses no `)` follows, so each group around it misses too.
                if depth == 0 {
                    return fallen(f, form);
                }
                let outermost = frames[0];
                return fallen(outermost, form);
            }
        }
    }
}
