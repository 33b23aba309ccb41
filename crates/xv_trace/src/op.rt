//! The operations of a guest.

ghost use Rattle.std.specs.Prelude.{◌≡◌};
ghost use Rattle.xv_trace.specs.Operations.{op_count};

use xv_base::Pattern;

/// One operation of a guest.
#[derive(Clone, Copy, Debug, PartialEq, Eq)]
pub enum Op {
    /// Stores `len` bytes, the pattern repeated, from a memory address on, within one page.
    Store {
        addr: u32,
        len: u32,
        pat: Pattern,
    },
    /// Loads `len` bytes from a memory address on, within one page.
    Load {
        addr: u32,
        len: u32,
    },
    /// Writes a run of whole blocks, each filled by the pattern from its own start.
    Write {
        disk: u8,
        block: u32,
        count: u32,
        pat: Pattern,
    },
    /// Reads `len` bytes from an offset in one block.
    Fetch {
        disk: u8,
        block: u32,
        offset: u32,
        len: u32,
    },
}

impl Op {
    /// How many unit operations the operation is.
    pub fn count(&self) -> u32
        ensures { result ≡ op_count self.now }
    {
        match self {
            Op::Store { .. } => 1,
            Op::Load { .. } => 1,
            Op::Write { count, .. } => *count,
            Op::Fetch { .. } => 1,
        }
    }
}

/// The word of an operation in a text.
#[derive(Clone, Copy, Debug, PartialEq, Eq)]
pub enum Verb {
    Store,
    Load,
    Write,
    Fetch,
}
