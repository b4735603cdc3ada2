// One expression in a form, with its value and where it stops, by either engine.
ghost use Rattle.std.specs.Prelude.{◌≡◌};
ghost use Rattle.access.specs.Single.{value_answer, evaluated};
ghost use Rattle.access.specs.steps.Telling.{judged_of, told_of};

use amount::expression;
use decimal::{Decimal, Form, Value};
use text::permitted;
use text::permitted::SIZE;
use text::stop::{BAD_BYTE, NO_EXPRESSION, Reading, Refused, Stop, TOO_LONG, refused_at};

// A text before any expression in it is read: its bytes may all stand there.
fn judge(text: &[u8]) -> Result<(), Refused>
    ensures { result ≡ judged_of text.now }
{
    if SIZE < text.len() {
        return Err(refused_at(TOO_LONG, 0));
    }
    let c = permitted::clean_prefix(text);
    if c < text.len() {
        return Err(refused_at(BAD_BYTE, c));
    }
    Ok(())
}

fn valued(e: usize, v: Value) -> Result<(usize, Decimal), Refused>
    ensures { result ≡ value_answer e v }
{
    match v {
        Ok(d) => Ok((e, d)),
        Err(fault) => Err(refused_at(usize::from(fault), 0)),
    }
}

// What an engine answers at a text's start, as the call's answer.
fn told(a: Reading<Value>) -> Result<(usize, Decimal), Refused>
    ensures { result ≡ told_of a }
{
    match a {
        Ok((e, v)) => valued(e, v),
        Err(Stop::Miss) => Err(refused_at(NO_EXPRESSION, 0)),
        Err(Stop::Hard(cause, p)) => Err(refused_at(usize::from(cause), p)),
    }
}

// The expression at the start of a text, by the readers that call each other.
pub fn evaluate(text: &[u8], form: Form) -> Result<(usize, Decimal), Refused>
    ensures { result ≡ evaluated form text.now }
{
    judge(text)?;
    told(expression::expression_in(text, 0, form))
}

// The same by the second engine (M-113). A function of its own: the table would stand on the first one's stack too.
pub fn evaluate_stacked(text: &[u8], form: Form) -> Result<(usize, Decimal), Refused>
    ensures { result ≡ evaluated form text.now }
{
    judge(text)?;
    told(engine::evaluate(text, 0, form))
}
