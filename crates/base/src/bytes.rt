// Numbers in byte slices, least byte first. Every function answers for any slice and any index.
ghost use Rattle.std.specs.Prelude.{◌≡◌, ◌+◌, ◌*◌, leb, length, get_or};
ghost use Rattle.base.specs.Bytes.{i32_bits, i32_bytes, overwrite, u32_from, u32_bytes, u32_record, u32s};

// The bits of -1.
pub const MINUS_ONE: u32 = 0xffff_ffff;

// The u32 whose least byte stands at `at`. Bytes past the end count as 0.
#[tactic(auto, unfolding(crate::specs::Bytes::u32_from))]
pub fn read_u32(s: &[u8], at: usize) -> u32
    ensures { result ≡ u32_from s.now at }
{
    let rest = s.get(at..).unwrap_or(&[]);
    match rest.first_chunk::<4>() {
        Some(bytes) => u32::from_le_bytes(*bytes),
        None => cut_u32(rest),
    }
}

// Number i of the u32 that stand end to end in s, or 0 past the last whole one. (It is read from a part of four bytes: the compiler then drops the
// test for room.)
pub fn u32_at(s: &[u8], i: usize) -> u32
    ensures { result ≡ get_or (u32s s.now) i 0 }
{
    if s.len() / 4 <= i {
        return 0;
    }
    read_u32(&s[4 * i..4 * i + 4], 0)
}

// Writes the four bytes of x from `at` on, where they fit.
pub fn write_u32(out: &mut [u8], at: usize, x: u32)
    ensures { out.new ≡ overwrite out.old at (u32_bytes x) }
{
    write_record(out, at, &[x]);
}

// Writes the four bytes of v from `at` on, where they fit. A trait for u32 and i32 would be longer than this function.
#[tactic(auto, unfolding(crate::specs::Bytes::i32_bytes))]
pub fn write_i32(out: &mut [u8], at: usize, v: i32)
    ensures { out.new ≡ overwrite out.old at (i32_bytes v) }
{
    write_u32(out, at, i32_bits(v));
}

// Writes a record, of any number of u32, from `at` on, where all of it fits. An i32 in a record is given by its bits.
pub fn write_record(out: &mut [u8], at: usize, values: &[u32])
    ensures { out.new ≡ overwrite out.old at (u32_record values.now) }
{
    if !has_room(out.len(), at, values.len()) {
        return;
    }
    for (i, value) in values.iter().enumerate() {
        let start = at + 4 * i;
        out[start..start + 4].copy_from_slice(&value.to_le_bytes());
    }
}

// The bits of v, two's complement.
#[tactic(auto, using(crate::proofs::SignedLaws::i32_bits_machine))]
pub fn i32_bits(v: i32) -> u32
    ensures { result ≡ i32_bits v }
{
    v.cast_unsigned()
}

// Whether `count` u32 from `at` on lie within `len` bytes.
fn has_room(len: usize, at: usize, count: usize) -> bool
    ensures { result ≡ leb (at + 4 * count) len }
{
    at <= len && count <= (len - at) / 4
}

// The u32 of all bytes of s, of which there are fewer than four. Missing bytes count as 0.
#[tactic(auto, unfolding(crate::specs::Bytes::u32_from))]
fn cut_u32(s: &[u8]) -> u32
    ensures { result ≡ u32_from s.now 0 }
{
    u32::from_le_bytes([
        byte_or_zero(s, 0),
        byte_or_zero(s, 1),
        byte_or_zero(s, 2),
        byte_or_zero(s, 3),
    ])
}

// Byte k, or 0 past the end.
fn byte_or_zero(s: &[u8], k: usize) -> u8
    ensures { result ≡ get_or s.now k 0 }
{
    s.get(k).copied().unwrap_or(0)
}
