//! Little-endian words of 1, 2, 3, 4 and 8 bytes, read from the front of a slice and stored there.
//! Each call is one load or one store in the compiled code (two for 3 bytes).
//! Up to four bytes are listed one by one: docs/DECISIONS.md, Shape.
#![tactic(auto)]

ghost use Rattle.std.specs.Prelude.{◌≡◌, ◌≤◌, length, take};
ghost use Rattle.std.proofs.lemmas.List.Edits.{sets};
ghost use Rattle.words.specs.Little.{number, bytes};

/// The first byte.
pub fn le8(s: &[u8]) -> u8
    requires { 1 ≤ length s.now }
    ensures { result ≡ number (take 1 s.now) }
{
    s[0]
}

/// The first two bytes.
pub fn le16(s: &[u8]) -> u16
    requires { 2 ≤ length s.now }
    ensures { result ≡ number (take 2 s.now) }
{
    u16::from_le_bytes([s[0], s[1]])
}

/// The first three bytes, in the low 24 bits.
pub fn le24(s: &[u8]) -> u32
    requires { 3 ≤ length s.now }
    ensures { result ≡ number (take 3 s.now) }
{
    u32::from_le_bytes([s[0], s[1], s[2], 0])
}

/// The first four bytes.
pub fn le32(s: &[u8]) -> u32
    requires { 4 ≤ length s.now }
    ensures { result ≡ number (take 4 s.now) }
{
    u32::from_le_bytes([s[0], s[1], s[2], s[3]])
}

/// The first eight bytes.
pub fn le64(s: &[u8]) -> u64
    requires { 8 ≤ length s.now }
    ensures { result ≡ number (take 8 s.now) }
{
    u64::from_le_bytes(*s.first_chunk().unwrap())
}

/// Stores one byte; those behind it stay.
pub fn put8(out: &mut [u8], v: u8)
    requires { 1 ≤ length out.old }
    ensures { out.new ≡ sets out.old 0 (bytes 1 v) }
{
    out[0] = v;
}

/// Stores two bytes; those behind them stay.
pub fn put16(out: &mut [u8], v: u16)
    requires { 2 ≤ length out.old }
    ensures { out.new ≡ sets out.old 0 (bytes 2 v) }
{
    out[..2].copy_from_slice(&v.to_le_bytes());
}

/// Stores the low 24 bits of `v` in three bytes; those behind them stay.
pub fn put24(out: &mut [u8], v: u32)
    requires { 3 ≤ length out.old }
    ensures { out.new ≡ sets out.old 0 (bytes 3 v) }
{
    out[..3].copy_from_slice(&v.to_le_bytes()[..3]);
}

/// Stores four bytes; those behind them stay.
pub fn put32(out: &mut [u8], v: u32)
    requires { 4 ≤ length out.old }
    ensures { out.new ≡ sets out.old 0 (bytes 4 v) }
{
    out[..4].copy_from_slice(&v.to_le_bytes());
}

/// Stores eight bytes; those behind them stay.
pub fn put64(out: &mut [u8], v: u64)
    requires { 8 ≤ length out.old }
    ensures { out.new ≡ sets out.old 0 (bytes 8 v) }
{
    out[..8].copy_from_slice(&v.to_le_bytes());
}
