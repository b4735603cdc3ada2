// What is written to standard output.
ghost use Rattle.std.specs.Prelude.{◌≡◌};
ghost use Rattle.replay.specs.Counts.{compared_step, step_of};

use crate::compare::Alike;
use crate::tally::Step;
use crate::{call, compare};

// A write that fails is passed over: the counts don't depend on it.
fn write(rt: &impl Print, text: &[u8]) {
    let _ = rt.write_all(text);
}

fn write_number(rt: &impl Print, number: u64) {
    let _ = print!(rt; "{number}");
}

fn write_name(rt: &impl Print, call: usize) {
    match call {
        call::PLAIN => write(rt, b"plain reading"),
        call::RECOVERING => write(rt, b"recovering reading"),
        call::SINGLE => write(rt, b"single expression"),
        call::CONTENT => write(rt, b"string content"),
        call::SPAN => write(rt, b"text of a span"),
        call::FORCE => write(rt, b"tag in force"),
        call::STRICT => write(rt, b"strict reading"),
        call::RECOVERING_STRICT => write(rt, b"strict recovering reading"),
        call::SINGLE_EXACT => write(rt, b"single expression, exact"),
        call::TOTALS => write(rt, b"monthly totals"),
        call::PACKET => write(rt, b"packet"),
        call::WRITE => write(rt, b"ledger written afresh"),
        call::STEP => write(rt, b"step of a packet's reader"),
        _ => {
            write(rt, b"call ");
            write_number(rt, call as u64);
        }
    }
}

fn write_case(rt: &impl Print, number: u64) {
    write(rt, b"case ");
    write_number(rt, number);
}

fn write_part(rt: &impl Print, is_alike: bool, name: &[u8]) {
    if is_alike {
        return;
    }
    write(rt, name);
}

// The parts of an answer that differ.
fn difference(rt: &impl Print, number: u64, call: usize, a: Alike) {
    write_case(rt, number);
    write(rt, b", ");
    write_name(rt, call);
    write(rt, b", differs in:");
    write_part(rt, a.number, b" number");
    write_part(rt, a.place, b" place");
    write_part(rt, a.count, b" count");
    write_part(rt, a.value, b" value");
    write_part(rt, a.tag, b" what is handed out, or a working space");
    write_part(rt, a.text, b" text");
    write_part(rt, a.buffer, b" buffer");
    write(rt, b"\n");
}

fn unknown(rt: &impl Print, number: u64, call: usize) {
    write_case(rt, number);
    write(rt, b", ");
    write_name(rt, call);
    write(rt, b": unknown\n");
}

fn compared(rt: &impl Print, number: u64, is_shown: bool, call: usize, a: Alike) -> Step
    ensures { result ≡ compared_step a }
{
    if compare::is_alike(a) {
        return Step::Same;
    }
    if is_shown {
        difference(rt, number, call, a);
    }
    Step::Differs
}

fn not_known(rt: &impl Print, number: u64, is_shown: bool, call: usize) -> Step
    ensures { result ≡ Step.Differs }
{
    if is_shown {
        unknown(rt, number, call);
    }
    Step::Differs
}

// What a verdict counts as; a line for a case that differs, where it is to be shown.
pub fn told(rt: &impl Print, number: u64, is_shown: bool, call: usize, v: Option<Alike>) -> Step
    ensures { result ≡ step_of v }
{
    match v {
        Some(a) => compared(rt, number, is_shown, call, a),
        None => not_known(rt, number, is_shown, call),
    }
}

pub fn too_large(rt: &impl Print, number: u64) {
    write_case(rt, number);
    write(
        rt,
        b": its header says more than 65536 bytes; what follows is not read\n",
    );
}

pub fn cut_off(rt: &impl Print, number: u64) {
    write_case(rt, number);
    write(rt, b": the file ends inside it\n");
}

pub fn total(rt: &impl Print, cases: u64, differing: u64) {
    write_number(rt, cases);
    write(rt, b" cases, ");
    write_number(rt, differing);
    write(rt, b" differ\n");
}
