//! Which blocks there are, by their numbers ([MS-RDPEGFX] 2.2.4.2, blockType).

ghost use Rattle.std.specs.Prelude.{◌≡◌};
ghost use Rattle.gfx_prog_block.specs.Kinds.{block_number, block_type_of, tile_number, tile_type_of};

/// A block that stands in a message's data.
#[derive(Clone, Copy, Debug, PartialEq, Eq)]
pub enum BlockType {
    /// WBT_SYNC.
    Sync = 0xCCC0,
    /// WBT_FRAME_BEGIN.
    FrameBegin = 0xCCC1,
    /// WBT_FRAME_END.
    FrameEnd = 0xCCC2,
    /// WBT_CONTEXT.
    Context = 0xCCC3,
    /// WBT_REGION.
    Region = 0xCCC4,
}

impl BlockType {
    /// The type of this number, if a block has it.
    #[tactic(auto, unfolding(crate::specs::Kinds::block_type_of))]
    pub fn from_number(number: u16) -> Option<BlockType>
        ensures { result ≡ block_type_of number }
    {
        match number {
            0xCCC0 => Some(BlockType::Sync),
            0xCCC1 => Some(BlockType::FrameBegin),
            0xCCC2 => Some(BlockType::FrameEnd),
            0xCCC3 => Some(BlockType::Context),
            0xCCC4 => Some(BlockType::Region),
            _ => None,
        }
    }

    /// The number at a block's front.
    pub fn number(self) -> u16
        ensures { result ≡ block_number self }
    {
        self as u16
    }
}

/// A block that stands in a region.
#[derive(Clone, Copy, Debug, PartialEq, Eq)]
pub enum TileType {
    /// WBT_TILE_SIMPLE.
    Simple = 0xCCC5,
    /// WBT_TILE_PROGRESSIVE_FIRST.
    First = 0xCCC6,
    /// WBT_TILE_PROGRESSIVE_UPGRADE.
    Upgrade = 0xCCC7,
}

impl TileType {
    /// The type of this number, if a tile has it.
    #[tactic(auto, unfolding(crate::specs::Kinds::tile_type_of))]
    pub fn from_number(number: u16) -> Option<TileType>
        ensures { result ≡ tile_type_of number }
    {
        match number {
            0xCCC5 => Some(TileType::Simple),
            0xCCC6 => Some(TileType::First),
            0xCCC7 => Some(TileType::Upgrade),
            _ => None,
        }
    }

    /// The number at a tile's front.
    pub fn number(self) -> u16
        ensures { result ≡ tile_number self }
    {
        self as u16
    }
}
