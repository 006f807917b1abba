// The fields of records: what word f of a record is, a pointer word or a number, and where it stands,
// or why a call on it is refused. In audited buffers the pointer words of a record are a run from its
// first word on, so that a field is a pointer word exactly if it lies in the element and its pointer
// bit is on: nothing is counted. The buffers are not made one value: the calls are lent each by itself,
// and would make it for the one question.
#![tactic(auto)]

ghost use Rattle.model.specs.Facts.{Element};
ghost use Rattle.model.specs.Lent.{Consistent};
ghost use Rattle.model.specs.Promises.{AuditedTables, shared};
ghost use Rattle.record_fields.specs.Fields.{FieldOf, Finds};

use model::Refusal;
use units::{Address, Word};

// A word of a record: a pointer word or a number, and where it stands.
#[derive(Clone, Copy)]
pub enum Field {
    Pointer(Word),
    Number(Word),
}

// Field f of the record at word w.
fn field_of(p: usize, table: &[u32], bits: &[u64], w: Word, f: u64) -> Result<Field, Refusal>
    requires { Consistent p table.now bits.now × Element table.now w.0 }
    ensures { FieldOf p (shared table) (shared bits) w.0 f result }
{
    let first = w.0;
    let field = f as usize;
    let span = page_table::span_with_word(table, w);
    if classes::element_words(span.class, span.pages) <= field {
        return Err(Refusal::BadField);
    }
    let at = first + field;
    if bitmap::test(bits, units::POINTER_PART * (units::PAGE_WORDS * p) + at) {
        return Ok(Field::Pointer(Word(at)));
    }
    Ok(Field::Number(Word(at)))
}

// Field f of the record in slot j of stack s, for a call that names slot i besides.
pub fn find(
    p: usize,
    table: &[u32],
    bits: &[u64],
    roots: &[u64],
    s: u64,
    i: u64,
    j: u64,
    f: u64,
) -> Result<Field, Refusal>
    requires { AuditedTables p table.now bits.now roots.now }
    ensures { Finds p (shared table) (shared bits) (shared roots) s i j f result }
{
    root_checks::check_slots(roots, s, i, j)?;
    let slot = root_checks::slot_at(s, j);
    let record = Address(roots[slot]);
    if record.is_nil() {
        return Err(Refusal::NilSlot);
    }
    field_of(p, table, bits, record.word(), f)
}
