// Expressions (rule 8): the forms call each other in a cycle, in which the groups that may still open fall.
ghost use Rattle.std.specs.Prelude.{◌≡◌, ◌||◌, length, get_or};
ghost use Rattle.text.specs.Run.{blanks};
ghost use Rattle.text.specs.Answer.{◌then◌};
ghost use Rattle.amount.specs.Expression.{negated_value, operated, combined, is_plus, is_times, goes_on, atom, products, sums, negation, closed, group, within, expression_in, expression};
ghost use Rattle.amount.specs.steps.Answers.{answer_of, operator_of, operand_of, negated_answer, closed_answer};

use crate::literal;
use decimal::{Decimal, Form, Value};
use text::run::Class;
use text::stop::{Cause, Reading, Stop};
use text::{bytes, run};

// How many groups may be open around a place (refusal 3).
pub const GROUPS: usize = 32;

pub fn negated(v: Value) -> Value
    ensures { result ≡ negated_value v }
{
    decimal::neg(v?)
}

fn operated_by(op: u8, a: Decimal, b: Decimal, form: Form) -> Value
    ensures { result ≡ operated form op a b }
{
    if op == b'+' {
        return decimal::add(a, b);
    }
    if op == b'-' {
        return decimal::sub(a, b);
    }
    if op == b'*' {
        return decimal::mul(a, b, form);
    }
    decimal::div(a, b, form)
}

// The left operand's refusal goes first, then the right one's, then the operation's own.
pub fn combine(op: u8, v: Value, w: Value, form: Form) -> Value
    ensures { result ≡ combined form op v w }
{
    let a = v?;
    let b = w?;
    operated_by(op, a, b, form)
}

// Whether a byte is `*` or `/` where `times`, else whether it is `+` or `-`.
pub fn is_operator(times: bool, b: u8) -> bool
    ensures { result ≡ operator_of times b }
{
    if times {
        return (b == b'*') | (b == b'/');
    }
    (b == b'+') | (b == b'-')
}

// A group's expression, then blanks and `)`.
fn closing(s: &[u8], inner: Reading<Value>) -> Reading<Value>
    ensures { result ≡ closed_answer s.now inner }
{
    let (e, v) = inner?;
    let end = run::run(s, e, Class::Blank);
    if bytes::peek(s, end) == b')' {
        Ok((end + 1, v))
    } else {
        Err(Stop::Miss)
    }
}

fn negating(inner: Reading<Value>) -> Reading<Value>
    ensures { result ≡ negated_answer inner }
{
    let (e, v) = inner?;
    Ok((e, negated(v)))
}

// `left` more groups may open one in another.
#[cycle(expression)]
fn group_at(s: &[u8], at: usize, left: usize, form: Form) -> Reading<Value>
    ensures { result ≡ answer_of (group (combined form) left s.now at) }
{
    if bytes::peek(s, at) == b'(' {
        if left == 0 {
            return Err(Stop::Hard(Cause::TooDeep, at));
        }
        let inner = within_at(s, run::run(s, at + 1, Class::Blank), left - 1, form);
        return closing(s, inner);
    }
    Err(Stop::Miss)
}

#[cycle(expression)]
fn atom_at(s: &[u8], at: usize, left: usize, form: Form) -> Reading<Value>
    ensures { result ≡ answer_of (atom (group (combined form) left s.now) s.now at) }
{
    match literal::literal_at(s, at) {
        Err(Stop::Miss) => group_at(s, at, left, form),
        number => number,
    }
}

// What `*` and `/` join where `times`, else what `+` and `-` join.
#[cycle(expression)]
fn operand_at(s: &[u8], at: usize, left: usize, times: bool, form: Form) -> Reading<Value>
    ensures { result ≡ answer_of (operand_of times (combined form) (group (combined form) left s.now) s.now at) }
{
    if times {
        return atom_at(s, at, left, form);
    }
    product_at(s, at, left, form)
}

// Operators of one class with their operands, from a value on.
#[cycle(expression)]
fn chain_from(
    s: &[u8],
    from: usize,
    first: Value,
    left: usize,
    times: bool,
    form: Form,
) -> Reading<Value>
    ensures { result ≡ answer_of (goes_on (combined form) (operator_of times) (operand_of times (combined form) (group (combined form) left s.now) s.now) s.now (length s.now) first from) }
{
    let mut end = from;
    let mut value = first;
    for _ in 0..s.len() {
        let i = run::run(s, end, Class::Blank);
        let op = bytes::peek(s, i);
        if is_operator(times, op) {
            match operand_at(s, run::run(s, i + 1, Class::Blank), left, times, form) {
                Ok((f, w)) => {
                    value = combine(op, value, w, form);
                    end = f;
                }
                Err(Stop::Miss) => return Ok((end, value)),
                Err(hard) => return Err(hard),
            }
        } else {
            return Ok((end, value));
        }
    }
    Ok((end, value))
}

#[cycle(expression)]
fn product_at(s: &[u8], at: usize, left: usize, form: Form) -> Reading<Value>
    ensures { result ≡ answer_of (products (combined form) (group (combined form) left s.now) s.now at) }
{
    let (e, v) = atom_at(s, at, left, form)?;
    chain_from(s, e, v, left, true, form)
}

#[cycle(expression)]
fn sum_at(s: &[u8], at: usize, left: usize, form: Form) -> Reading<Value>
    ensures { result ≡ answer_of (sums (combined form) (group (combined form) left s.now) s.now at) }
{
    let (e, v) = product_at(s, at, left, form)?;
    chain_from(s, e, v, left, false, form)
}

#[cycle(expression)]
fn negation_at(s: &[u8], at: usize, left: usize, form: Form) -> Reading<Value>
    ensures { result ≡ answer_of (negation (group (combined form) left s.now) s.now at) }
{
    if bytes::peek(s, at) == b'-' {
        let inner = group_at(s, run::run(s, at + 1, Class::Blank), left, form);
        return negating(inner);
    }
    Err(Stop::Miss)
}

// An expression, where `left` groups may open one in another.
#[cycle(expression)]
fn within_at(s: &[u8], at: usize, left: usize, form: Form) -> Reading<Value>
    ensures { result ≡ answer_of (within (combined form) left s.now at) }
{
    match negation_at(s, at, left, form) {
        Err(Stop::Miss) => sum_at(s, at, left, form),
        negation => negation,
    }
}

// Whether an operator stands after blanks.
fn operator_follows(s: &[u8], at: usize) -> bool
    ensures { result ≡ (let b = get_or s.now (blanks s.now at) 0 in is_plus b || is_times b) }
{
    let op = bytes::peek(s, run::run(s, at, Class::Blank));
    is_operator(false, op) | is_operator(true, op)
}

// Rule 8 in the form of plain and recovering reading. A literal that no operator follows is all of it.
pub fn expression_at(s: &[u8], at: usize) -> Reading<Value>
    ensures { result ≡ answer_of (expression s.now at) }
{
    let number = literal::literal_at(s, at);
    if let Ok((e, _)) = number {
        if !operator_follows(s, e) {
            return number;
        }
    }
    within_at(s, at, GROUPS, Form::Rounding)
}

// Rule 8 in a form.
pub fn expression_in(s: &[u8], at: usize, form: Form) -> Reading<Value>
    ensures { result ≡ answer_of (expression_in form s.now at) }
{
    match form {
        Form::Exact => within_at(s, at, GROUPS, Form::Exact),
        Form::Rounding => expression_at(s, at),
    }
}
