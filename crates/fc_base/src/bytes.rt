//! Numbers in bytes, the high byte first.

ghost use Rattle.std.specs.Prelude.{◌≡◌, ◌+◌, ◌≤◌, ◌++◌, length, drop, OnOk};
ghost use Rattle.std.specs.Int.{w8, w32, w64};
ghost use Rattle.fc_base.specs.Layouts.{bytes_of, number_in};

use std::alloc::AllocError;

/// The number in the first byte, and the bytes behind it.
#[tactic(auto, unfolding(crate::specs::Layouts::number_in))]
pub fn split_u8(bytes: &[u8]) -> (u8, &[u8])
    requires { 1 ≤ length bytes.now }
    ensures number { result.0 ≡ number_in w8 bytes.now }
    ensures rest { result.1.now ≡ drop 1 bytes.now }
    ensures len { length result.1.now + 1 ≡ length bytes.now }
{
    let (front, rest) = bytes.split_at(1);
    (front[0], rest)
}

/// The number in the first four bytes, and the bytes behind it.
#[tactic(auto, unfolding(crate::specs::Layouts::number_in))]
pub fn split_u32(bytes: &[u8]) -> (u32, &[u8])
    requires { 4 ≤ length bytes.now }
    ensures number { result.0 ≡ number_in w32 bytes.now }
    ensures rest { result.1.now ≡ drop 4 bytes.now }
    ensures len { length result.1.now + 4 ≡ length bytes.now }
{
    let (front, rest) = bytes.split_at(4);
    let number = u32::from_be_bytes([front[0], front[1], front[2], front[3]]);
    (number, rest)
}

/// The number in the first eight bytes, and the bytes behind it.
#[tactic(auto, unfolding(crate::specs::Layouts::number_in))]
pub fn split_u64(bytes: &[u8]) -> (u64, &[u8])
    requires { 8 ≤ length bytes.now }
    ensures number { result.0 ≡ number_in w64 bytes.now }
    ensures rest { result.1.now ≡ drop 8 bytes.now }
    ensures len { length result.1.now + 8 ≡ length bytes.now }
{
    let (front, rest) = bytes.split_at(8);
    let number = u64::from_be_bytes([
        front[0], front[1], front[2], front[3], front[4], front[5], front[6], front[7],
    ]);
    (number, rest)
}

/// Appends a number of one byte.
#[tactic(auto, unfolding(crate::specs::Layouts::bytes_of))]
pub fn put_u8(out: &mut Vec<u8>, number: u8) -> Result<(), AllocError>
    ensures { OnOk result (out.new.items ≡ out.old.items ++ bytes_of w8 number) }
{
    out.push(number)?;
    Ok(())
}

/// Appends a number of four bytes.
#[tactic(auto, unfolding(crate::specs::Layouts::bytes_of))]
pub fn put_u32(out: &mut Vec<u8>, number: u32) -> Result<(), AllocError>
    ensures { OnOk result (out.new.items ≡ out.old.items ++ bytes_of w32 number) }
{
    out.extend_from_slice(&number.to_be_bytes())
}

/// Appends a number of eight bytes.
#[tactic(auto, unfolding(crate::specs::Layouts::bytes_of))]
pub fn put_u64(out: &mut Vec<u8>, number: u64) -> Result<(), AllocError>
    ensures { OnOk result (out.new.items ≡ out.old.items ++ bytes_of w64 number) }
{
    out.extend_from_slice(&number.to_be_bytes())
}
