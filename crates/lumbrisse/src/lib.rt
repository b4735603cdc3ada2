// What the site box calls, on byte slices and numbers: document 01's calls, and those that document 02 adds. Nothing is
// asked of the caller. `lumbrisse_c` exports them to C.
#![tactic(auto)]

pub mod reply;

ghost use Rattle.ledger.specs.Plain.{plain};
ghost use Rattle.ledger.specs.Strict.{strict};
ghost use Rattle.recovery.specs.Recovering.{recovered, recovered_strictly};
ghost use Rattle.edit.specs.Edits.{editing};
ghost use Rattle.lumbrisse.specs.Promises.{TablePromise, TotalsPromise, WritePromise, ContentPromise, ExpressionPromise, TagPromise, SpanPromise, PacketPromise, StepPromise};

use access::{single, span, tables};
use bus::{reader, writer};
use decimal::Form;
use edit::reread;
use ledger::read;
use recovery::recover;
use reply::{Evaluated, Handed, Part, Reply};

// Plain reading: the rows' count, or a refusal.
pub fn lumbrisse_read(ledger: &[u8], table: &mut [u8]) -> Reply
    ensures { TablePromise (plain ledger.now) table.old result table.new }
{
    let a = read::read(ledger, table);
    reply::reply_of(a)
}

// Recovering reading: the rows' count, or a refusal (1 or 9).
pub fn lumbrisse_recover(ledger: &[u8], table: &mut [u8]) -> Reply
    ensures { TablePromise (recovered ledger.now) table.old result table.new }
{
    let a = recover::recover(ledger, table);
    reply::reply_of(a)
}

// Strict reading: plain reading, and lost lines (16) and flags but `*` and `!` (17) are refused.
pub fn lumbrisse_read_strict(ledger: &[u8], table: &mut [u8]) -> Reply
    ensures { TablePromise (strict ledger.now) table.old result table.new }
{
    let a = read::read_strict(ledger, table);
    reply::reply_of(a)
}

// Recovering reading, each block read strictly: the rows' count, or a refusal (1 or 9).
pub fn lumbrisse_recover_strict(ledger: &[u8], table: &mut [u8]) -> Reply
    ensures { TablePromise (recovered_strictly ledger.now) table.old result table.new }
{
    let a = recover::recover_strict(ledger, table);
    reply::reply_of(a)
}

// Recovering reading of a ledger of which one block, from `start` to `end`, is replaced by new bytes, from the old
// ledger and its first k rows (M-109): only the new bytes are read. The rows' count, or a refusal (1, 10 or 9).
pub fn lumbrisse_edit(
    old: &[u8],
    rows: &[u8],
    k: usize,
    start: usize,
    end: usize,
    new: &[u8],
    table: &mut [u8],
) -> Reply
    ensures { TablePromise (editing old.now rows.now k start end new.now) table.old result table.new }
{
    let a = reread::edit(old, rows, k, start, end, new, table);
    reply::reply_of(a)
}

// The totals of a ledger for a year and month (M-108): the items' count, or a refusal. `work` and `spare` are working
// space: 32 bytes in each for each posting of the month.
pub fn lumbrisse_totals(
    ledger: &[u8],
    year: usize,
    month: usize,
    items: &mut [u8],
    work: &mut [u8],
    spare: &mut [u8],
) -> Reply
    ensures { TotalsPromise ledger.now year month items.old work.old spare.old result items.new work.new spare.new }
{
    let a = totals::totals::totals(ledger, year, month, items, work, spare);
    reply::reply_of(a)
}

// A ledger written afresh (M-103): how many bytes, or a refusal. `work` is working space: a row's width for each row.
pub fn lumbrisse_write(ledger: &[u8], output: &mut [u8], work: &mut [u8]) -> Reply
    ensures { WritePromise ledger.now output.old work.old result output.new work.new }
{
    let a = rewrite::write::write(ledger, output, work);
    reply::reply_of(a)
}

// The expression at a text's start: its value and where it stops, or a refusal. Products and quotients round, as in
// both readings.
pub fn lumbrisse_expression(text: &[u8]) -> Evaluated
    ensures { ExpressionPromise Form.Rounding text.now result }
{
    let a = single::evaluate(text, Form::Rounding);
    reply::evaluated_of(a)
}

// The same in the exact form: a product or quotient that is no multiple of a millionth is refused (7).
pub fn lumbrisse_expression_exact(text: &[u8]) -> Evaluated
    ensures { ExpressionPromise Form.Exact text.now result }
{
    let a = single::evaluate(text, Form::Exact);
    reply::evaluated_of(a)
}

// The expression in the rounding form, by the second engine (M-113): the answer of `lumbrisse_expression`, and the same
// small stack at any depth.
pub fn lumbrisse_expression_stacked(text: &[u8]) -> Evaluated
    ensures { ExpressionPromise Form.Rounding text.now result }
{
    let a = single::evaluate_stacked(text, Form::Rounding);
    reply::evaluated_of(a)
}

// The expression in the exact form, by the second engine: the answer of `lumbrisse_expression_exact`.
pub fn lumbrisse_expression_stacked_exact(text: &[u8]) -> Evaluated
    ensures { ExpressionPromise Form.Exact text.now result }
{
    let a = single::evaluate_stacked(text, Form::Exact);
    reply::evaluated_of(a)
}

// String content without its escapes: how many bytes it has, or a refusal.
pub fn lumbrisse_content(content: &[u8], buffer: &mut [u8]) -> Reply
    ensures { ContentPromise content.now buffer.old result buffer.new }
{
    let a = access::content::unescape(content, buffer);
    reply::reply_of(a)
}

// Whether a tag is in force after the first k rows: count 1 or 0, or a refusal.
pub fn lumbrisse_tag_in_force(ledger: &[u8], table: &[u8], k: usize, tag: &[u8]) -> Reply
    ensures { TagPromise ledger.now table.now k tag.now result }
{
    let a = tables::tag_in_force(ledger, table, k, tag);
    reply::force_reply(a)
}

// Which part of the ledger a span's text is: the text itself is the caller's own.
pub fn lumbrisse_span(ledger: &[u8], start: usize, end: usize) -> Part
    ensures { SpanPromise ledger.now start end result }
{
    if span::is_good(ledger, start, end) {
        return Part {
            start,
            length: end - start,
        };
    }
    Part {
        start: 0,
        length: 0,
    }
}

// The packet of a table's first k rows, with the texts of a ledger (M-112): how many bytes it has, or a refusal.
pub fn lumbrisse_packet_write(ledger: &[u8], table: &[u8], k: usize, packet: &mut [u8]) -> Reply
    ensures { PacketPromise ledger.now table.now k packet.old result packet.new }
{
    let a = writer::write(ledger, table, k, packet);
    reply::reply_of(a)
}

// One step of a reader that stands at a place of a packet: a row, and the text of a detail, or a refusal.
pub fn lumbrisse_packet_next(packet: &[u8], at: usize, row: &mut [u8], text: &mut [u8]) -> Handed
    ensures { StepPromise packet.now at row.old text.old result row.new text.new }
{
    let x = reader::read_at(packet, at, row, text);
    reply::handed_of(x, at)
}
