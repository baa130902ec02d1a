//! Which blocks there are, by their numbers ([MS-RDPRFX] 2.2.2.1.1, blockType).

ghost use Rattle.std.specs.Prelude.{◌≡◌};
ghost use Rattle.gfx_rfx_video.specs.Kinds.{block_number, block_type_of};

/// The number of a tile, which stands in a tile set (CBT_TILE, [MS-RDPRFX] 2.2.2.3.4.1).
pub const TILE: u16 = 0xCAC3;

/// A block that stands in a message's data.
#[derive(Clone, Copy, Debug, PartialEq, Eq)]
pub enum BlockType {
    /// WBT_SYNC.
    Sync = 0xCCC0,
    /// WBT_CODEC_VERSIONS.
    Versions = 0xCCC1,
    /// WBT_CHANNELS.
    Channels = 0xCCC2,
    /// WBT_CONTEXT.
    Context = 0xCCC3,
    /// WBT_FRAME_BEGIN.
    FrameBegin = 0xCCC4,
    /// WBT_FRAME_END.
    FrameEnd = 0xCCC5,
    /// WBT_REGION.
    Region = 0xCCC6,
    /// WBT_EXTENSION, which is a tile set.
    TileSet = 0xCCC7,
}

impl BlockType {
    /// The type of this number, if a block has it.
    #[tactic(auto, unfolding(crate::specs::Kinds::block_type_of))]
    pub fn from_number(number: u16) -> Option<BlockType>
        ensures { result ≡ block_type_of number }
    {
        match number {
            0xCCC0 => Some(BlockType::Sync),
            0xCCC1 => Some(BlockType::Versions),
            0xCCC2 => Some(BlockType::Channels),
            0xCCC3 => Some(BlockType::Context),
            0xCCC4 => Some(BlockType::FrameBegin),
            0xCCC5 => Some(BlockType::FrameEnd),
            0xCCC6 => Some(BlockType::Region),
            0xCCC7 => Some(BlockType::TileSet),
            _ => None,
        }
    }

    /// The number at a block's front.
    pub fn number(self) -> u16
        ensures { result ≡ block_number self }
    {
        self as u16
    }
}
