//! The summary of the last frame at its last generation, with all blocks used.
use block_log::{Block, BlockKind};
use codec::{BlockRole, BlockRoles, Summary, encode_summary};
use s4_types::ObjectId;

/// Its digest, made by another program.
const DIGEST: [u8; 32] = [
    0x3c, 0x06, 0x6a, 0xe6, 0x7f, 0x02, 0x83, 0x76, 0xd4, 0x64, 0x73, 0x3c, 0x7e, 0xd3, 0x7e, 0x98,
    0x9f, 0x8f, 0xac, 0x5d, 0x52, 0xb0, 0xc7, 0xef, 0x5f, 0xa4, 0xf9, 0x75, 0x80, 0xf9, 0xc4, 0x86,
];

/// Byte `i` of block `k` is `7 * k + i`, less what is above a byte.
fn payload() -> [Block; 15] {
    let mut payload = [[0; 512]; 15];
    for block in 0..15 {
        for place in 0..512 {
            payload[block][place] = ((7 * (block + 1) + place) % 256) as u8;
        }
    }
    payload
}

/// Roles of each kind in turn, of the last objects.
fn roles() -> BlockRoles {
    let kinds = [
        BlockKind::Journal,
        BlockKind::Checkpoint,
        BlockKind::Data,
        BlockKind::Pointers,
    ];
    let mut roles = BlockRoles::new();
    for place in 0..15usize {
        let object = ObjectId::new(u64::MAX - place as u64);
        let kind = kinds[place % 4];
        roles.try_push(BlockRole { kind, object }).ok();
    }
    roles
}

/// Whether the block has these bytes: of the head, of the last role with the first zero after it,
/// and the digest.
fn is_spelled(block: &Block) -> bool {
    block[..12] == [0x53, 0x34, 0x73, 0x67, 255, 255, 15, 0, 255, 255, 255, 254][..]
        && block[142..152] == [3, 255, 255, 255, 255, 255, 255, 255, 241, 0][..]
        && block[480..] == DIGEST[..]
}

#[test]
fn the_last_summary(rt: HostRuntime) {
    let is_so = match Summary::new(u16::MAX, u32::MAX - 1, roles()) {
        Some(summary) => is_spelled(&encode_summary(&summary, &payload())),
        None => false,
    };
    assert!(rt; is_so);
}
