// The text of a bench: how long it is, and written into a lent buffer that has room for it. The bench is lent as four lists: the parents and states of the 64
// numbers, and the read sets and write sets of the 128 instruments.
#![tactic(auto)]

mod cells;

ghost use Rattle.std.specs.Prelude.{◌≡◌, List, ℕ, ◌≤◌, length};
ghost use Rattle.forms.specs.Text.{text_of};
ghost use Rattle.saving.specs.Written.{Written};
ghost use Rattle.saving.specs.Stored.{Stores};

use crate::cells::{Instruments, Numbers, cells_length, write_cells};
use marks::answers::{ACCEPTED, Refusal};

// What a save hands back, as document 01 shapes it: how many bytes it wrote, and the answer's number.
#[derive(Clone, Copy)]
pub struct Saved {
    pub count: usize,
    pub answer: u8,
}

// The length of the whole text, whatever the parents.
pub fn text_length<'a>(states: &'a [u8], reads: &'a [u64], writes: &'a [u64]) -> usize
    ensures { (parents : List ℕ) →
        result ≡ length (text_of (record { parents = parents; states = states.now; reads = reads.now; writes = writes.now })) }
{
    // whatever the parents, since they have no say in which numbers have a frame
    let numbers = Numbers {
        parents: &[],
        states: states,
    };
    let instruments = Instruments {
        reads: reads,
        writes: writes,
    };
    cells_length(&numbers) + cells_length(&instruments)
}

// Writes the whole text at the buffer's start, and gives its length.
fn write_text<'a>(
    out: &mut [u8],
    parents: &'a [u8],
    states: &'a [u8],
    reads: &'a [u64],
    writes: &'a [u64],
) -> usize
    requires { length (text_of (record { parents = parents.now; states = states.now; reads = reads.now; writes = writes.now })) ≤ length out.old }
    ensures { Written out.old 0 (text_of (record {
      parents = parents.now;
      states = states.now;
      reads = reads.now;
      writes = writes.now;
    })) out.new result }
{
    let numbers = Numbers {
        parents: parents,
        states: states,
    };
    let instruments = Instruments {
        reads: reads,
        writes: writes,
    };
    let at = write_cells(out, 0, &numbers);
    write_cells(out, at, &instruments)
}

// Writes the whole text at the buffer's start, where it has room for it; else nothing.
#[inline(never)] // keeps the stack that the C header states
pub fn store_text<'a>(
    out: &mut [u8],
    parents: &'a [u8],
    states: &'a [u8],
    reads: &'a [u64],
    writes: &'a [u64],
) -> Saved
    ensures { Stores (record {
      parents = parents.now;
      states = states.now;
      reads = reads.now;
      writes = writes.now;
    }) out.old result out.new }
{
    if out.len() < text_length(states, reads, writes) {
        return Saved {
            count: 0,
            answer: Refusal::NoRoom as u8,
        };
    }
    Saved {
        count: write_text(out, parents, states, reads, writes),
        answer: ACCEPTED,
    }
}
