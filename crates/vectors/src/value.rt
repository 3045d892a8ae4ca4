// What the words of a record stand for, for every type that a record has: the value of a word, and the word of a value.
ghost use Rattle.std.specs.Prelude.{◌≡◌, ℕ, ◌%◌, ◌^◌, ◌==◌, not, cond, from_bits, to_bits};
ghost use Rattle.std.specs.Int.{w32};
ghost use Rattle.std.proofs.Common.{to_z, of_z};
ghost use Rattle.std.specs.Float.{binary32, binary64};

// A type whose values stand in a record, a word each.
pub trait Value: Copy {
    // What a word stands for.
    ghost value_of: { ℕ → Self };

    // The word that is written for a value.
    ghost word_of: { Self → ℕ };

    fn of_word(word: u64) -> Self
        ensures { result ≡ value_of word };

    fn word(self) -> u64
        ensures { result ≡ word_of self };
}

// The pattern in a word's low 32 bits. Every NaN pattern gives a NaN, and 7FC00000 is written for each NaN.
impl Value for f32 {
    ghost value_of = { λ w. from_bits binary32 (w % 2 ^ 32) };

    ghost word_of = { to_bits binary32 };

    fn of_word(word: u64) -> f32 {
        let bits = word % 0x1_0000_0000;
        if 0x7F80_0000 < bits % 0x8000_0000 {
            return 0.0f32 / 0.0f32;
        }
        f32::from_bits(bits as u32)
    }

    fn word(self) -> u64 {
        if self != self {
            return 0x7FC0_0000;
        }
        u64::from(f32::to_bits(self))
    }
}

// The pattern in a word, in the same way; 7FF8000000000000 is written for each NaN.
impl Value for f64 {
    ghost value_of = { from_bits binary64 };

    ghost word_of = { to_bits binary64 };

    fn of_word(word: u64) -> f64 {
        if 0x7FF0_0000_0000_0000 < word % 0x8000_0000_0000_0000 {
            return 0.0f64 / 0.0f64;
        }
        f64::from_bits(word)
    }

    fn word(self) -> u64 {
        if self != self {
            return 0x7FF8_0000_0000_0000;
        }
        f64::to_bits(self)
    }
}

// The low 8 bits of a word.
impl Value for u8 {
    ghost value_of = { λ w. w % 2 ^ 8 };

    ghost word_of = { λ v. v };

    fn of_word(word: u64) -> u8 {
        (word % 256) as u8
    }

    fn word(self) -> u64 {
        u64::from(self)
    }
}

// The low 16 bits.
impl Value for u16 {
    ghost value_of = { λ w. w % 2 ^ 16 };

    ghost word_of = { λ v. v };

    fn of_word(word: u64) -> u16 {
        (word % 65536) as u16
    }

    fn word(self) -> u64 {
        u64::from(self)
    }
}

// The low 32 bits.
impl Value for u32 {
    ghost value_of = { λ w. w % 2 ^ 32 };

    ghost word_of = { λ v. v };

    fn of_word(word: u64) -> u32 {
        (word % 0x1_0000_0000) as u32
    }

    fn word(self) -> u64 {
        u64::from(self)
    }
}

// A word as it is.
impl Value for u64 {
    ghost value_of = { λ w. w };

    ghost word_of = { λ v. v };

    fn of_word(word: u64) -> u64 {
        word
    }

    fn word(self) -> u64 {
        self
    }
}

// A word as a count.
impl Value for usize {
    ghost value_of = { λ w. w };

    ghost word_of = { λ v. v };

    fn of_word(word: u64) -> usize {
        // By hand: From has no conversion from u64 to usize.
        word as usize
    }

    fn word(self) -> u64 {
        // By hand: From has no conversion from usize to u64.
        self as u64
    }
}

// The low 32 bits in two's complement.
impl Value for i32 {
    ghost value_of = { λ w. to_z w32 (w % 2 ^ 32) };

    ghost word_of = { of_z w32 };

    fn of_word(word: u64) -> i32 {
        u32::of_word(word).cast_signed()
    }

    fn word(self) -> u64 {
        u64::from(self.cast_unsigned())
    }
}

// No for 0, and yes for any other word; 1 is written for yes.
impl Value for bool {
    ghost value_of = { λ w. not (w == 0) };

    ghost word_of = { λ v. cond v 1 0 };

    fn of_word(word: u64) -> bool {
        word != 0
    }

    fn word(self) -> u64 {
        u64::from(self)
    }
}
