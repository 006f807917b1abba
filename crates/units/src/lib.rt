// Addresses, page numbers and word numbers as types of their own, so that one cannot be given for
// another, with the conversions between them; and the limits and offsets of lent memory, each once, as
// the model has them in specs/Memory.antt. What counts or indexes is a usize; what is compared with the
// words of a buffer or with a size in bytes is a u64, with the numbers of the page table a u32.
#![tactic(auto)]

ghost use Rattle.std.specs.Prelude.{◌≡◌, ◌*◌, ◌≤◌, eqb};
ghost use Rattle.model.specs.Memory.{max_pages, page_words, page_blocks, nil, address_of, word_of, page_of, first_word};

// The buffers: pages, and the lengths of the arena, the page table, the bitmaps and the roots.
pub const MAX_PAGES: usize = 256;

pub const PAGE_BYTES: u64 = 8192;

pub const PAGE_WORDS: usize = 1024;

pub const WORD_BYTES: u64 = 8;

pub const ENTRY_NUMBERS: usize = 3;

pub const BITMAP_WORDS: usize = 64;

pub const WORD_BITS: usize = 64;

// The bitmap words of a page in each part. Each has the bits of 64 arena words, a block.
pub const PAGE_BLOCKS: usize = 16;

// The parts of the bitmaps, each by how many stand before it. The allocated one is the first. Numbers
// and no enum: they are factors of an offset.
pub const MARKED_PART: usize = 1;

pub const GRAY_PART: usize = 2;

pub const POINTER_PART: usize = 3;

// A word with every bit set.
pub const ALL_BITS: u64 = 0xFFFF_FFFF_FFFF_FFFF;

pub const ROOT_WORDS: usize = 562;

// What stands where in the roots.
pub const STACKS: usize = 16;

pub const SLOTS: usize = 32;

pub const GLOBALS: usize = 32;

pub const FIRST_GLOBAL: usize = 512;

pub const FIRST_STATE: usize = 544;

pub const GLOBALS_STATE: usize = 560;

pub const PHASE: usize = 561;

// The states of a stack; the globals have the last two. Numbers and no enum, as the phases are: they are
// compared with words of the lent roots, as the scope document has them.
pub const CLOSED: u64 = 0;

pub const OPEN: u64 = 1;

pub const GRAY: u64 = 2;

// The phases.
pub const OFF: u64 = 0;

pub const MARK: u64 = 1;

pub const SWEEP: u64 = 2;

// What an unswept span has in its kind besides.
pub const UNSWEPT_FLAG: u32 = 256;

// Addresses.
pub const NIL: u64 = 0;

const FIRST_ADDRESS: u64 = 8192;

// The address of an arena word, or any number that stands where one may.
#[derive(Clone, Copy)]
pub struct Address(pub u64);

// The number of an arena word.
#[derive(Clone, Copy)]
pub struct Word(pub usize);

// The number of a page.
#[derive(Clone, Copy)]
pub struct Page(pub usize);

impl Address {
    pub fn is_nil(self) -> bool
        ensures { result ≡ eqb self.0 nil }
    {
        self.0 == NIL
    }

    // The word that the address names; word 0 where it lies below all of them. Not an Option: `word_of` of
    // the definitions gives 0 there, and `names_word` tells the two apart.
    pub fn word(self) -> Word
        ensures { result.0 ≡ word_of self.0 }
    {
        if self.0 < FIRST_ADDRESS {
            return Word(0);
        }
        let w = (self.0 - FIRST_ADDRESS) / WORD_BYTES;
        Word(w as usize)
    }

    // The address is that of a word, and not of a byte within one.
    pub fn names_word(self) -> bool
        ensures { result ≡ eqb self.0 (address_of (word_of self.0)) }
    {
        if self.0 < FIRST_ADDRESS {
            return false;
        }
        self.0 % WORD_BYTES == 0
    }
}

impl Word {
    pub fn address(self) -> Address
        requires { self.0 ≤ max_pages * page_words }
        ensures { result.0 ≡ address_of self.0 }
    {
        Address(FIRST_ADDRESS + WORD_BYTES * self.0 as u64)
    }

    // The page that the word lies in.
    pub fn page(self) -> Page
        ensures { result.0 ≡ page_of self.0 }
    {
        Page(self.0 / PAGE_WORDS)
    }
}

impl Page {
    pub fn first_word(self) -> Word
        requires { self.0 ≤ max_pages }
        ensures { result.0 ≡ first_word self.0 }
    {
        Word(PAGE_WORDS * self.0)
    }

    // The first of the page's bitmap words in a part.
    pub fn first_block(self) -> usize
        requires { self.0 ≤ max_pages }
        ensures { result ≡ page_blocks * self.0 }
    {
        PAGE_BLOCKS * self.0
    }
}
