// The archive's symbols: each call of `lumbrisse` under its own name, with its promise word for word, for C and Rust. A
// slice is passed as its pointer and its length, an answer as its struct.
#![tactic(auto)]

ghost use Rattle.ledger.specs.Plain.{plain};
ghost use Rattle.ledger.specs.Strict.{strict};
ghost use Rattle.recovery.specs.Recovering.{recovered, recovered_strictly};
ghost use Rattle.edit.specs.Edits.{editing};
ghost use Rattle.decimal.specs.declared.Form.{Form};
ghost use Rattle.lumbrisse.specs.Promises.{TablePromise, TotalsPromise, WritePromise, ContentPromise, ExpressionPromise, TagPromise, SpanPromise, PacketPromise, StepPromise};

use lumbrisse::reply::{Evaluated, Handed, Part, Reply};

#[unsafe(no_mangle)]
pub extern "C" fn lumbrisse_read(ledger: &[u8], table: &mut [u8]) -> Reply
    ensures { TablePromise (plain ledger.now) table.old result table.new }
{
    lumbrisse::lumbrisse_read(ledger, table)
}

#[unsafe(no_mangle)]
pub extern "C" fn lumbrisse_recover(ledger: &[u8], table: &mut [u8]) -> Reply
    ensures { TablePromise (recovered ledger.now) table.old result table.new }
{
    lumbrisse::lumbrisse_recover(ledger, table)
}

#[unsafe(no_mangle)]
pub extern "C" fn lumbrisse_read_strict(ledger: &[u8], table: &mut [u8]) -> Reply
    ensures { TablePromise (strict ledger.now) table.old result table.new }
{
    lumbrisse::lumbrisse_read_strict(ledger, table)
}

#[unsafe(no_mangle)]
pub extern "C" fn lumbrisse_recover_strict(ledger: &[u8], table: &mut [u8]) -> Reply
    ensures { TablePromise (recovered_strictly ledger.now) table.old result table.new }
{
    lumbrisse::lumbrisse_recover_strict(ledger, table)
}

#[unsafe(no_mangle)]
pub extern "C" fn lumbrisse_edit(
    old: &[u8],
    rows: &[u8],
    k: usize,
    start: usize,
    end: usize,
    new: &[u8],
    table: &mut [u8],
) -> Reply
    ensures { TablePromise (editing old.now rows.now k start end new.now) table.old result table.new }
{
    lumbrisse::lumbrisse_edit(old, rows, k, start, end, new, table)
}

#[unsafe(no_mangle)]
pub extern "C" fn lumbrisse_totals(
    ledger: &[u8],
    year: usize,
    month: usize,
    items: &mut [u8],
    work: &mut [u8],
    spare: &mut [u8],
) -> Reply
    ensures { TotalsPromise ledger.now year month items.old work.old spare.old result items.new work.new spare.new }
{
    lumbrisse::lumbrisse_totals(ledger, year, month, items, work, spare)
}

#[unsafe(no_mangle)]
pub extern "C" fn lumbrisse_write(ledger: &[u8], output: &mut [u8], work: &mut [u8]) -> Reply
    ensures { WritePromise ledger.now output.old work.old result output.new work.new }
{
    lumbrisse::lumbrisse_write(ledger, output, work)
}

#[unsafe(no_mangle)]
pub extern "C" fn lumbrisse_expression(text: &[u8]) -> Evaluated
    ensures { ExpressionPromise Form.Rounding text.now result }
{
    lumbrisse::lumbrisse_expression(text)
}

#[unsafe(no_mangle)]
pub extern "C" fn lumbrisse_expression_exact(text: &[u8]) -> Evaluated
    ensures { ExpressionPromise Form.Exact text.now result }
{
    lumbrisse::lumbrisse_expression_exact(text)
}

#[unsafe(no_mangle)]
pub extern "C" fn lumbrisse_expression_stacked(text: &[u8]) -> Evaluated
    ensures { ExpressionPromise Form.Rounding text.now result }
{
    lumbrisse::lumbrisse_expression_stacked(text)
}

#[unsafe(no_mangle)]
pub extern "C" fn lumbrisse_expression_stacked_exact(text: &[u8]) -> Evaluated
    ensures { ExpressionPromise Form.Exact text.now result }
{
    lumbrisse::lumbrisse_expression_stacked_exact(text)
}

#[unsafe(no_mangle)]
pub extern "C" fn lumbrisse_content(content: &[u8], buffer: &mut [u8]) -> Reply
    ensures { ContentPromise content.now buffer.old result buffer.new }
{
    lumbrisse::lumbrisse_content(content, buffer)
}

#[unsafe(no_mangle)]
pub extern "C" fn lumbrisse_tag_in_force(ledger: &[u8], table: &[u8], k: usize, tag: &[u8]) -> Reply
    ensures { TagPromise ledger.now table.now k tag.now result }
{
    lumbrisse::lumbrisse_tag_in_force(ledger, table, k, tag)
}

#[unsafe(no_mangle)]
pub extern "C" fn lumbrisse_span(ledger: &[u8], start: usize, end: usize) -> Part
    ensures { SpanPromise ledger.now start end result }
{
    lumbrisse::lumbrisse_span(ledger, start, end)
}

#[unsafe(no_mangle)]
pub extern "C" fn lumbrisse_packet_write(
    ledger: &[u8],
    table: &[u8],
    k: usize,
    packet: &mut [u8],
) -> Reply
    ensures { PacketPromise ledger.now table.now k packet.old result packet.new }
{
    lumbrisse::lumbrisse_packet_write(ledger, table, k, packet)
}

#[unsafe(no_mangle)]
pub extern "C" fn lumbrisse_packet_next(
    packet: &[u8],
    at: usize,
    row: &mut [u8],
    text: &mut [u8],
) -> Handed
    ensures { StepPromise packet.now at row.old text.old result row.new text.new }
{
    lumbrisse::lumbrisse_packet_next(packet, at, row, text)
}
