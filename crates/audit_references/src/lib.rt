// What a reference is: nil, or the address of a kept element. Asked of one value, and of every slot and
// global; crate audit_words asks it of the words of the arena. Which elements are kept is read in the
// bitmaps: in an unswept span those that are marked, in any other those that are allocated. Outside
// the sweep phase no span is unswept, and a reference is tested by one bit, without the page table.
// The page table has passed the audit. A crate apart from audit_words for the gate's time too: each
// wrong program proves its whole crate again.
#![tactic(auto)]

ghost use Rattle.std.specs.Prelude.{◌≡◌, ◌↔◌, ◌*◌, ◌<◌, ◌≤◌, T, length};
ghost use Rattle.model.specs.Memory.{max_pages, page_words, first_global};
ghost use Rattle.model.specs.Facts.{States};
ghost use Rattle.model.specs.Lent.{Roots, Mapped, Told};
ghost use Rattle.audit_references.specs.References.{kept_from};

use units::{
    Address, CLOSED, FIRST_GLOBAL, FIRST_STATE, MARKED_PART, PAGE_WORDS, SLOTS, STACKS, Word,
};

// Where the bits start that say which elements of a span are kept.
fn kept_from(p: usize, unswept: bool) -> usize
    requires { p ≤ max_pages }
    ensures { result ≡ kept_from p unswept }
{
    if unswept {
        MARKED_PART * (PAGE_WORDS * p)
    } else {
        0
    }
}

// What tells which elements are kept: the page table and the bitmaps of so many pages, and whether it is
// known that no span is unswept.
#[derive(Clone, Copy)]
pub struct Kept<'a> {
    pub pages: usize,
    pub table: &'a [u32],
    pub bits: &'a [u64],
    pub swept: bool,
    ghost mapped: { Mapped pages table.now bits.now },
    ghost told: { Told swept table.now },
}

impl Kept<'_> {
    ghost use Rattle.audit_references.specs.Kept.{contains, IsReference, Range, RootReferences};

    // Word w of the arena starts a kept element.
    fn contains(self, w: Word) -> bool
        requires { w.0 < page_words * self.pages }
        ensures { result ≡ contains self.entry w.0 }
    {
        let at = w.0;
        if self.swept {
            return bitmap::test(self.bits, at);
        }
        let span = page_table::span_with_word(self.table, w);
        let from = kept_from(self.pages, span.unswept);
        bitmap::test(self.bits, from + at)
    }

    // The value is nil or the address of a kept element.
    #[tactic(auto, using(crate::proofs::References::kept_inside))]
    pub fn is_reference(self, v: Address) -> bool
        ensures { T result ↔ IsReference self.entry v.0 }
    {
        // The word is asked for where the value names one: before the tests it costs each pointer word a step.
        v.is_nil()
            || v.names_word() && v.word().0 < PAGE_WORDS * self.pages && self.contains(v.word())
    }

    // These words of the roots are references.
    fn words_ok(self, words: &[u64]) -> bool
        ensures { T result ↔ Range self.entry words.now 0 (length words.now) }
    {
        words.iter().all(|value| self.is_reference(Address(*value)))
    }

    // So are the slots of every stack. Those of a closed one are nil.
    fn slots_ok(self, roots: &[u64]) -> bool
        requires { Roots roots.now × States roots.now }
        ensures { T result ↔ Range self.entry roots.now 0 first_global }
    {
        for s in 0..STACKS {
            let first = SLOTS * s;
            let state = roots[FIRST_STATE + s];
            if state != CLOSED && !self.words_ok(&roots[first..first + SLOTS]) {
                return false;
            }
        }
        true
    }

    // So is every slot and every global.
    pub fn roots_ok(self, roots: &[u64]) -> bool
        requires { Roots roots.now × States roots.now }
        ensures { T result ↔ RootReferences self.entry roots.now }
    {
        self.slots_ok(roots) && self.words_ok(&roots[FIRST_GLOBAL..FIRST_STATE])
    }
}
