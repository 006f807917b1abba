// Size classes: the shape of a record by its size and its pointer words, and what a span of a class
// holds, as the model's specs/Classes.antt defines them. Crate class_lookup has the class of a size,
// class_table the classes' rows.
#![tactic(auto)]

ghost use Rattle.std.specs.Prelude.{cond, ◌≡◌, ◌+◌, ◌*◌, ◌^◌, ◌≤◌, ◌<◌, eqb};
ghost use Rattle.model.specs.Lent.{StartsMask};
ghost use Rattle.model.specs.Classes.{rows, class_pages, element_words_of, elements_of};
ghost use Rattle.classes.specs.Shape.{Shaped};

use class_lookup::class_of;
use class_table::row_of;
use units::{PAGE_BYTES, PAGE_WORDS, WORD_BITS};

// The largest size of a record.
pub const MAX_SIZE: u64 = 1048576;

// What a record's size and its number of pointer words decide, looked up once: the kind of its span,
// the pages of a new span for it, and the words of its element.
#[derive(Clone, Copy)]
pub struct Shape {
    // a number and no enum, as the page table holds it
    pub kind: u32,
    pub pages: usize,
    pub words: usize,
}

// The elements of a span: the words of one, and how many there are.
#[derive(Clone, Copy)]
pub struct Layout {
    pub words: usize,
    pub count: usize,
}

// What `starts` gives for each size below 64; an element of 0 words has its own start alone.
const STARTS: [u64; WORD_BITS] = [
    0x0000000000000001,
    0xffffffffffffffff,
    0x5555555555555555,
    0x9249249249249249,
    0x1111111111111111,
    0x1084210842108421,
    0x1041041041041041,
    0x8102040810204081,
    0x0101010101010101,
    0x8040201008040201,
    0x1004010040100401,
    0x0080100200400801,
    0x1001001001001001,
    0x0010008004002001,
    0x0100040010004001,
    0x1000200040008001,
    0x0001000100010001,
    0x0008000400020001,
    0x0040001000040001,
    0x0200004000080001,
    0x1000010000100001,
    0x8000040000200001,
    0x0000100000400001,
    0x0000400000800001,
    0x0001000001000001,
    0x0004000002000001,
    0x0010000004000001,
    0x0040000008000001,
    0x0100000010000001,
    0x0400000020000001,
    0x1000000040000001,
    0x4000000080000001,
    0x0000000100000001,
    0x0000000200000001,
    0x0000000400000001,
    0x0000000800000001,
    0x0000001000000001,
    0x0000002000000001,
    0x0000004000000001,
    0x0000008000000001,
    0x0000010000000001,
    0x0000020000000001,
    0x0000040000000001,
    0x0000080000000001,
    0x0000100000000001,
    0x0000200000000001,
    0x0000400000000001,
    0x0000800000000001,
    0x0001000000000001,
    0x0002000000000001,
    0x0004000000000001,
    0x0008000000000001,
    0x0010000000000001,
    0x0020000000000001,
    0x0040000000000001,
    0x0080000000000001,
    0x0100000000000001,
    0x0200000000000001,
    0x0400000000000001,
    0x0800000000000001,
    0x1000000000000001,
    0x2000000000000001,
    0x4000000000000001,
    0x8000000000000001,
];

// The kind of a record of class c with p pointer words: even for scan, odd for noscan.
fn kind_of(c: usize, p: u64) -> u32
    requires { c ≤ rows }
    ensures { result ≡ 2 * c + cond (eqb p 0) 1 0 }
{
    2 * c as u32 + u32::from(p == 0)
}

// The pages of a span of class c.
pub fn class_pages(c: usize) -> usize
    requires { (1 ≤ c) × (c ≤ rows) }
    ensures { result ≡ class_pages c }
{
    usize::from(row_of(c).1)
}

// The shape of a record of so many bytes with so many pointer words.
pub fn shape_of(size: u64, pointers: u64) -> Shape
    ensures { Shaped size pointers result }
{
    let c = class_of(size);
    let kind = kind_of(c, pointers);
    if c == 0 {
        let pages = size.div_ceil(PAGE_BYTES) as usize;
        return Shape {
            kind,
            pages,
            words: PAGE_WORDS * pages,
        };
    }
    let row = row_of(c);
    Shape {
        kind,
        pages: usize::from(row.1),
        words: usize::from(row.0),
    }
}

// The words of an element of class c in a span of n pages, as many as the page table can say.
pub fn element_words(c: usize, n: usize) -> usize
    requires { (c ≤ rows) × (n < 2 ^ 32) }
    ensures { result ≡ element_words_of c n }
{
    if c == 0 {
        return PAGE_WORDS * n;
    }
    usize::from(row_of(c).0)
}

// The elements of a span of class c and n pages, as many as the page table can say. One row of the
// table tells both numbers.
pub fn layout_of(c: usize, n: usize) -> Layout
    requires { (c ≤ rows) × (n < 2 ^ 32) }
    ensures { (result.words ≡ element_words_of c n) × (result.count ≡ elements_of c) }
{
    if c == 0 {
        let words = PAGE_WORDS * n;
        return Layout { words, count: 1 };
    }
    let row = row_of(c);
    let words = usize::from(row.0);
    let count = PAGE_WORDS * usize::from(row.1) / words;
    Layout { words, count }
}

// The starts of elements of so many words in the 64 words from an element's first on: bit j is on
// where the size divides j.
pub fn starts(size: usize) -> u64
    ensures { StartsMask size result }
{
    if size < WORD_BITS { STARTS[size] } else { 1 }
}
