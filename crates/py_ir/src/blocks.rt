//! Blocks as a caller of `finalize_code` gives them, each with instructions of its own.
ghost use Rattle.std.specs.Prelude.{◌≡◌, ◌<◌, ◌++◌, ◌∷◌, [], Some, length, slice_get, slice_set, OnOk, OnErr, IfErr};
ghost use Rattle.std.specs.Borrow.{Lends, sem};
ghost use Rattle.py_ir.specs.contracts.blocks.Block.{the_row as block_row};
ghost use Rattle.py_ir.specs.contracts.blocks.Blocks.{the_row};

use crate::{BlockIdx, InstructionInfo};
use py_base::List;
use std::alloc::Global;
use std::marker::Model;

/// Instructions in order, and the block after them.
#[derive(Debug, Drop)]
pub struct Block {
    pub instructions: List<InstructionInfo>,
    pub next: BlockIdx,
}

impl Block {
    /// An empty block with none after it. It takes no memory.
    pub fn new(alloc: Global) -> Block
        ensures instructions { result.instructions ≡ [] }
        ensures next { result.next ≡ BlockIdx.NULL }
    {
        Block {
            instructions: List::new(alloc),
            next: BlockIdx::NULL,
        }
    }
}

/// Blocks, each named by its number. Contracts see the list of them.
#[derive(Drop)]
pub struct Blocks {
    blocks: Vec<Block>,
}

impl Model for Blocks {
    ghost use Rattle.std.specs.Prelude.{List as ListOf};
    ghost use Rattle.py_ir.specs.declared.blocks.Block.{Block};

    ghost Value = { ListOf Block };

    ghost view = { λ b. b.blocks.items };
}

impl Blocks {
    /// No blocks. It takes no memory.
    pub fn new(alloc: Global) -> Blocks
        ensures { result ≡ [] }
    {
        Blocks {
            blocks: Vec::new(alloc),
        }
    }

    /// How many blocks there are.
    pub fn len(&self) -> usize
        ensures { result ≡ length self.now }
    {
        self.blocks.len()
    }

    /// All blocks.
    pub fn as_slice(&self) -> &[Block]
        ensures { result.now ≡ self.now }
    {
        self.blocks.as_slice()
    }

    /// A block by its number.
    pub fn block(&self, i: BlockIdx) -> &Block
        requires { i.0 < length self.now }
        ensures { slice_get self.now i.0 ≡ Some result.now }
    {
        &self.blocks[i.0 as usize]
    }

    /// A block by its number, to be changed. The other blocks stay.
    pub fn block_mut(&mut self, i: BlockIdx) -> &mut Block
        requires { i.0 < length self.old }
        ensures* writes_back { sem 𝓛 (Lends the_row block_row self.entry result (λ block. slice_set self.old i.0 block)) }
        ensures value { slice_get self.old i.0 ≡ Some result.now }
    {
        &mut self.blocks[i.0 as usize]
    }

    /// Puts a block last.
    ///
    /// # Errors
    /// There is no memory for it: the block comes back, and nothing has changed.
    pub fn push(&mut self, block: Block) -> Result<(), Block>
        ensures ok { OnOk result (self.new ≡ self.old ++ block ∷ []) }
        ensures back { IfErr result (λ b. b ≡ block) }
        ensures err { OnErr result (self.new ≡ self.old) }
    {
        match self.blocks.push(block) {
            Ok(()) => Ok(()),
            Err(failed) => Err(failed.value),
        }
    }
}
