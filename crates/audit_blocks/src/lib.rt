// A block of the bitmaps: four words, one of each part, with the bits of 64 arena words that lie in
// one span. Every rule of the audit about bits is a test of whole words here, so that a block is
// tested without going through its bits. A crate apart from audit_bits for the gate's time: each wrong
// program proves its whole crate again.
#![tactic(auto)]

ghost use Rattle.std.specs.Prelude.{◌≡◌};
ghost use Rattle.model.specs.Memory.{word_bits};
ghost use Rattle.model.specs.Bounded.{all_below};
ghost use Rattle.audit_blocks.specs.Block.{rule, pointer_rule};

// The allocated, marked and gray bits of a block keep the rules. `starts` has a bit for each word at
// which an element starts; `marks` and `grays` are all ones where such bits may stand, else 0.
pub fn colours_ok(a: u64, m: u64, g: u64, starts: u64, marks: u64, grays: u64) -> bool
    ensures { result ≡ all_below word_bits (rule a m g starts marks grays) }
{
    let astray = a & !starts;
    let bad_marks = m & !(a & marks);
    let bad_grays = g & !(m & grays);
    astray | bad_marks | bad_grays == 0
}

// The pointer bits of a block in a scan span keep the rules. `inside` has a bit for each word that
// lies in an element and not in the tail, `before` the pointer bit of the word before the block.
pub fn pointers_ok(a: u64, q: u64, starts: u64, inside: u64, before: u64) -> bool
    ensures { result ≡ all_below word_bits (pointer_rule a q starts inside before) }
{
    let astray = q & !inside;
    let none = a & !q;
    let unowned = (q & starts) & !a;
    let apart = (q & !starts) & !((q << 1) | (before & 1));
    astray | none | unowned | apart == 0
}
