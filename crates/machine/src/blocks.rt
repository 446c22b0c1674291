// The two ways in which a block is made: from its fields, and from the numbers that a place or a record keeps of it; and how many
// numbers its fields are in lists.
ghost use Rattle.std.specs.Prelude.{◌≡◌};
ghost use Rattle.machine.specs.Labels.{label_of, labelled_block, no_block, plain_block};

use crate::Block;

// Moves of a block: X, Y, Z.
pub const MOVES: usize = 3;
// Numbers of a block beside its moves: feed, radius, mark.
pub const FIELDS: usize = 3;

// A block by its moves, µm, feed, µm/s, radius, µm, and mark.
pub fn plain_block(x: i64, y: i64, z: i64, feed: u64, radius: u64, mark: u64) -> Block
    ensures { result ≡ plain_block x y z feed radius mark }
{
    Block {
        x,
        y,
        z,
        feed,
        radius,
        mark,
    }
}

// The block with a label, 21 bits. Today the label is the mark; `label_of` and this are the one place to change for another.
pub fn labelled_block(x: i64, y: i64, z: i64, feed: u64, radius: u64, label: u64) -> Block
    ensures { result ≡ labelled_block x y z feed radius label }
{
    plain_block(x, y, z, feed, radius, label)
}

// The label of a block.
pub fn label_of(b: Block) -> u64
    ensures { result ≡ label_of b }
{
    b.mark
}

// What stands for a block where there is none: `default` by the name of its definition.
pub fn no_block() -> Block
    ensures { result ≡ no_block }
{
    Block::default()
}
