// Input comes in blocks and is played in lines. The line under way stands in a lent buffer of 80
// bytes; a block is taken up to its next line feed, up to its end, or up to the byte for which the
// line has no room.
#![tactic(auto)]

ghost use Rattle.trace_split.specs.Split.{UnderWay, TakesBytes};
ghost use Rattle.model.specs.Promises.{exclusive, shared};

use trace_read::LONGEST;

const LINE_FEED: u8 = b'\n';

// What a block gives: a line of so many bytes, with the place in the block after its line feed; so
// many bytes of a line that is still under way; or a line that is too long.
#[derive(Clone, Copy)]
pub enum Taken {
    Line(usize, usize),
    Part(usize),
    TooLong,
}

// The bytes of the block from `from` on join the `used` bytes of the line under way.
// Not a slice of the line: behind its first `used` bytes is the room for these; nor of the block: the
// place behind a line is told in it.
pub fn take(line: &mut [u8], used: usize, block: &[u8], from: usize) -> Taken
    requires { UnderWay line.old used block.now from }
    ensures { TakesBytes (exclusive line) used (shared block) from result }
{
    let mut at = used;
    for i in from..block.len() {
        let b = block[i];
        if b == LINE_FEED {
            return Taken::Line(at, i + 1);
        }
        if at == LONGEST {
            return Taken::TooLong;
        }
        line[at] = b;
        at += 1;
    }
    Taken::Part(at)
}
