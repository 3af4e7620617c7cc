// The words that the circuits run on: sixteen columns in a u16, sixty-four in a u64.
ghost use Rattle.std.specs.Prelude.{ℕ};
ghost use Rattle.sbox.specs.Words.{Bitwise, numbers};

use std::ops::{BitAnd, BitOr, BitXor, Not};

// A word with its operators on bits.
pub trait Word: Copy
    + BitAnd<Self, Output = Self>
    + BitOr<Self, Output = Self>
    + BitXor<Self, Output = Self>
    + Not<Output = Self> {
    // How many columns it has.
    ghost width: { ℕ };

    // Its value.
    ghost number: { Self → ℕ };

    // The operators go over its bits.
    ghost laws: { Bitwise width number Self.can_bitand Self.can_bitor Self.can_bitxor Self.can_not
        Self.bitand_gives Self.bitor_gives Self.bitxor_gives Self.not_gives };
}

impl Word for u16 {
    ghost width = { 16 };

    ghost number = { λ x. x };

    ghost laws = { numbers 16 };
}

impl Word for u64 {
    ghost width = { 64 };

    ghost number = { λ x. x };

    ghost laws = { numbers 64 };
}
