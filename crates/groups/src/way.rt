// A way through a cipher.
ghost use Rattle.std.specs.Prelude.{◌≤◌};
ghost use Rattle.state.specs.Block.{rows};
ghost use Rattle.plane_tweakeys.specs.Shared.{Shared};

use rounds::Cipher;

// So many steps of a cipher under a key, all of them or all of them undone. The key stands in each of sixty-four states too, which are lent.
#[derive(Drop)]
pub struct Way<'a> {
    pub ahead: bool,
    pub cipher: Cipher,
    pub steps: usize,
    pub key: [u8; 16],
    pub shared: &'a [[u64; 16]; 8],
    ghost few: { steps ≤ 14 },
    ghost same: { Shared (rows key) shared.now },
}
