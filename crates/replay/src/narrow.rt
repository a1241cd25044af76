// Numbers of a narrower type, from their low bits.

pub fn byte(n: u64) -> u8 {
    (n & 0xff) as u8
}

// The signed number with these 8 bits.
pub fn id(n: u64) -> i8 {
    byte(n).cast_signed()
}

pub fn word(n: u64) -> u32 {
    (n & 0xffff_ffff) as u32
}

// The signed number with these 32 bits.
pub fn offset(n: u64) -> i32 {
    word(n).cast_signed()
}
